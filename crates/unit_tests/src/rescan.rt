//! Streams beside a reader that keeps no judge: it holds what is unfinished, and reads all of it anew with each piece.
//!
//! Every line is given in two pieces at each of its places. Streams that build their messages and streams that lend
//! them must answer each piece as that reader does, and hold as much.

use crate::assertions::assert_equal_in;
use std::alloc::Global;
use std::process::Abort;
use std::test::Fail;
use zvt_apdu::scan;
use zvt_grammar::Scan;
use zvt_stream::{Fed, FedView, FeedError, Stream, Truncated};

/// What a feed answers.
type Answer = Result<FedView, FeedError>;

const MORE: Answer = Ok(FedView::More);

/// A message ended after that many bytes of the piece.
fn ended(taken: usize) -> Answer {
    Ok(FedView::Message { taken })
}

/// What `feed` answers, its message left aside.
fn built(alloc: Global, stream: &mut Stream, piece: &[u8]) -> Answer {
    match stream.feed(alloc, piece) {
        Ok(Fed::Message { taken, .. }) => ended(taken),
        Ok(Fed::More) => MORE,
        Ok(Fed::Refused { place, why }) => Ok(FedView::Refused { place, why }),
        Err(error) => Err(error),
    }
}

// Says nothing of what it answers: beside that each step of a caller's proof is dear.
fn viewed(stream: &mut Stream, piece: &[u8]) -> Answer {
    stream.feed_view(piece)
}

/// How many bytes a stream holds, and whether it may end there.
fn left(stream: &Stream) -> (usize, Result<(), Truncated>) {
    (stream.held(), stream.finish())
}

/// The bytes of a line that are unfinished, or nothing after a refusal.
#[derive(Drop)]
struct Rescan {
    held: Vec<u8>,
    stopped: bool,
}

impl Rescan {
    fn new(alloc: Global) -> Rescan {
        Rescan {
            held: Vec::new(alloc),
            stopped: false,
        }
    }

    /// What a stream is to answer to the piece.
    fn feed(&mut self, alloc: Global, piece: &[u8]) -> Answer {
        if self.stopped {
            return Err(FeedError::Stopped);
        }
        let before = self.held.len();
        self.held.extend_from_slice(piece)?;
        let answer = match scan(alloc, &self.held)? {
            Scan::More => return MORE,
            Scan::Whole((_, size)) => ended(size.saturating_sub(before)),
            Scan::Refused { place, why } => {
                self.stopped = true;
                Ok(FedView::Refused { place, why })
            }
        };
        self.held.clear();
        answer
    }

    /// How many bytes it holds, and whether it may end there.
    fn left(&self) -> (usize, Result<(), Truncated>) {
        match self.held.len() {
            0 => (0, Ok(())),
            have => (have, Err(Truncated { have })),
        }
    }
}

/// The reader, and the streams beside it.
#[derive(Drop)]
struct Beside {
    rescan: Rescan,
    building: Stream,
    lending: Stream,
}

impl Beside {
    fn new(alloc: Global) -> Beside {
        Beside {
            rescan: Rescan::new(alloc),
            building: Stream::new(alloc),
            lending: Stream::new(alloc),
        }
    }

    /// Feeds a piece to all of them, which answer the same: how much of it was taken.
    fn feed(&mut self, rt: &impl Abort, alloc: Global, piece: &[u8]) -> usize {
        let answer = self.rescan.feed(alloc, piece);
        assert_equal_in(
            rt,
            &piece,
            &built(alloc, &mut self.building, piece),
            &answer,
        );
        assert_equal_in(rt, &piece, &viewed(&mut self.lending, piece), &answer);
        let held = self.rescan.left();
        assert_equal_in(rt, &piece, &left(&self.building), &held);
        assert_equal_in(rt, &piece, &left(&self.lending), &held);
        match answer {
            Ok(FedView::Message { taken }) => taken,
            _ => piece.len(),
        }
    }
}

/// The line is read alike in two pieces at that place, of each piece at most three messages.
fn same_at(rt: &impl Abort, alloc: Global, line: &[u8], cut: usize) {
    let mut beside = Beside::new(alloc);
    for piece in [line.get(..cut), line.get(cut..)] {
        let mut rest = piece.unwrap_or(&[]);
        for _ in 0..3 {
            let taken = beside.feed(rt, alloc, rest);
            rest = rest.get(taken..).unwrap_or(&[]);
            if rest.is_empty() {
                break;
            }
        }
    }
}

/// The line is read alike at each cut.
fn same(rt: &impl Abort, alloc: Global, line: &[u8]) {
    for cut in 0..line.len() {
        same_at(rt, alloc, line, cut);
    }
}

#[test]
fn lines_are_read_alike_at_each_cut(rt: HostRuntime) {
    for line in LINES.iter().chain(MESSAGES.iter()) {
        same(&rt, rt.alloc(), line);
    }
}

#[test]
fn long_lines_are_read_alike(rt: HostRuntime) -> Result<(), Fail> {
    let alloc = rt.alloc();
    let mut object = [0x41; 134];
    object[..8].copy_from_slice(&[0x06, 0x0F, 0x83, 0x06, 0x81, 0x80, 0x07, 0x7E]);
    same(&rt, alloc, object.as_slice());
    let mut text = Vec::from_slice(alloc, &[0x06, 0xD1, 0xFF, 0xFF, 0x00])?;
    text.resize(260, 0x20)?;
    same(&rt, alloc, &text);
    let mut longest = Vec::from_slice(alloc, &[0x06, 0xD1, 0xFF, 0xFF, 0xFF])?;
    longest.resize(65_540, 0x20)?;
    for cut in [3, 65_539] {
        same_at(&rt, alloc, &longest, cut);
    }
    Ok(())
}

/// The line with each of its bytes replaced by each other one is read alike at each cut.
fn same_where_changed(rt: &impl Abort, alloc: Global, line: &[u8]) -> Result<(), Fail> {
    let mut changed = line.to_vec(alloc)?;
    for place in 0..line.len() {
        for other in 1..=255u8 {
            if let Some(byte) = changed.get_mut(place) {
                *byte ^= other;
            }
            same(rt, alloc, &changed);
            if let Some(byte) = changed.get_mut(place) {
                *byte ^= other;
            }
        }
    }
    Ok(())
}

#[test]
fn a_changed_status_is_read_alike_at_each_cut(rt: HostRuntime) -> Result<(), Fail> {
    same_where_changed(&rt, rt.alloc(), STATUS)
}

#[test]
fn a_changed_payment_is_read_alike_at_each_cut(rt: HostRuntime) -> Result<(), Fail> {
    same_where_changed(&rt, rt.alloc(), PAYMENT)
}

#[test]
fn changed_objects_are_read_alike_at_each_cut(rt: HostRuntime) -> Result<(), Fail> {
    same_where_changed(&rt, rt.alloc(), DEEPEST)
}

#[test]
fn changed_objects_that_are_too_deep_are_read_alike_at_each_cut(
    rt: HostRuntime,
) -> Result<(), Fail> {
    same_where_changed(&rt, rt.alloc(), TOO_DEEP)
}

/// What a stream answers to a byte, and how many levels are open then.
fn opened(stream: &mut Stream, byte: u8) -> (Answer, usize) {
    let answer = viewed(stream, &[byte]);
    (answer, stream.levels())
}

#[test]
fn each_container_and_object_opens_a_level(rt: HostRuntime) {
    let mut stream = Stream::new(rt.alloc());
    for (place, byte) in DEEPEST.iter().enumerate() {
        let wanted = if place < 16 {
            (MORE, place / 2 + 1)
        } else {
            (ended(1), 0)
        };
        assert_equal_in(&rt, &place, &opened(&mut stream, *byte), &wanted);
    }
}

/// What a stream answers to the start of a line, and what it holds then.
fn cut_off(alloc: Global, prefix: &[u8]) -> (Answer, (usize, Result<(), Truncated>)) {
    let mut stream = Stream::new(alloc);
    let answer = viewed(&mut stream, prefix);
    (answer, left(&stream))
}

#[test]
fn the_prefix_of_a_message_is_cut_off(rt: HostRuntime) {
    for line in MESSAGES {
        for have in 1..line.len() {
            let wanted = (MORE, (have, Err(Truncated { have })));
            let found = cut_off(rt.alloc(), &line[..have]);
            assert_equal_in(&rt, &have, &found, &wanted);
        }
        let whole = (ended(line.len()), (0, Ok(())));
        assert_equal_in(&rt, &line, &cut_off(rt.alloc(), line), &whole);
    }
}

const STATUS: &[u8] = &[
    0x04, 0x0F, 0x10, 0x27, 0x00, 0x04, 0x00, 0x00, 0x00, 0x00, 0x12, 0x34, 0x0B, 0x00, 0x00, 0x17,
    0x87, 0x00, 0x05,
];

const PAYMENT: &[u8] = &[
    0x06, 0x01, 0x0A, 0x04, 0x00, 0x00, 0x00, 0x00, 0x12, 0x34, 0x49, 0x09, 0x78,
];

/// Six objects in one another, the last of them empty.
const DEEPEST: &[u8] = &[
    0x06, 0x0F, 0x0E, 0x06, 0x0C, 0x25, 0x0A, 0x25, 0x08, 0x25, 0x06, 0x25, 0x04, 0x25, 0x02, 0x07,
    0x00,
];

/// Seven objects in one another.
const TOO_DEEP: &[u8] = &[
    0x06, 0x0F, 0x0E, 0x06, 0x0C, 0x25, 0x0A, 0x25, 0x08, 0x25, 0x06, 0x25, 0x04, 0x25, 0x02, 0x25,
    0x00,
];

/// A message and nothing after it.
const MESSAGES: [&[u8]; 13] = [
    STATUS,
    PAYMENT,
    DEEPEST,
    &[0x80, 0x00, 0x00],
    &[0x80, 0x00, 0x02, 0xAA, 0xBB],
    &[0x84, 0x6C, 0x00],
    &[0x06, 0x00, 0x06, 0x00, 0x00, 0x00, 0xBE, 0x09, 0x78],
    &[0x06, 0x0F, 0x00],
    &[0x06, 0x0F, 0x06, 0x06, 0x04, 0x1F, 0x81, 0x07, 0x00],
    &[0x06, 0xD1, 0x05, 0x00, 0x4F, 0x4B, 0x22, 0x80],
    &[0x06, 0x30, 0x06, 0x00, 0x00, 0x00, 0x87, 0x00, 0x05],
    &[0x06, 0x1E, 0x01, 0x6C],
    &[0x04, 0xFF, 0x02, 0x0A, 0x01],
];

/// Several messages, and lines that are refused: what is wrong is at the end of each, or an acknowledgement after it.
const LINES: [&[u8]; 21] = [
    &[
        0x04, 0x0F, 0x10, 0x27, 0x00, 0x04, 0x00, 0x00, 0x00, 0x00, 0x12, 0x34, 0x0B, 0x00, 0x00,
        0x17, 0x87, 0x00, 0x05, 0x04, 0x0F, 0x10, 0x27, 0x00, 0x04, 0x00, 0x00, 0x00, 0x00, 0x12,
        0x34, 0x0B, 0x00, 0x00, 0x17, 0x87, 0x00, 0x05,
    ],
    &[0x80, 0x00, 0x00, 0x06, 0x0F, 0x03, 0x06, 0x80, 0x00, 0x00],
    &[0x80, 0x00, 0x00, 0x80],
    &[0x80, 0x00, 0x00, 0x06, 0x0F, 0x00, 0x80, 0x00, 0x00],
    &[0x06, 0x00, 0x05, 0x80, 0x00, 0x00],
    &[0x06, 0x01, 0x01],
    &[0x06, 0x0F, 0x06, 0x06, 0x04, 0x07, 0x81, 0x01, 0x41],
    &[0x06, 0x0F, 0x03, 0x06],
    &[0x06, 0x01, 0x08, 0x04],
    &[0x06, 0x0F, 0x05, 0x06, 0x03, 0x25],
    &[0x06, 0x01, 0x07, 0x04, 0x00, 0x00, 0x00, 0x00, 0x12, 0x3A],
    &[0x06, 0xD1, 0xFF, 0xFE, 0x00],
    &[0x06, 0x01, 0x02, 0xD0, 0x80, 0x00, 0x00],
    &[0x80, 0x00, 0x00, 0x06, 0x01, 0x02, 0xD0, 0x80, 0x00, 0x00],
    &[0x04, 0x0F, 0x05, 0x8B, 0xF0, 0xFA],
    &[0x04, 0x0F, 0x06, 0x8B, 0xF1],
    TOO_DEEP,
    &[0x06, 0x0F, 0x06, 0x06, 0x04, 0x1F, 0x81, 0x87],
    &[0x06, 0x0F, 0x04, 0x06, 0x02, 0x07, 0x80],
    &[0x06, 0x0F, 0x82, 0x06, 0x81],
    &[0x06, 0x0F, 0x03, 0x06, 0x81, 0x01],
];
