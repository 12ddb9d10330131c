//! Streams that are fed in pieces, and what they are made of (`zvt_stream`).
use std::alloc::Global;
use zvt_grammar::{Lengths, Why};
use zvt_stream::{
    Fed, FedView, FeedError, Held, Judge, Judged, LineForm, Steps, Stream, Truncated,
};

const ACK: [u8; 3] = [0x80, 0x00, 0x00];

/// No message has the BMP D0.
const UNKNOWN: [u8; 4] = [0x06, 0x01, 0x02, 0xD0];

/// A whole completion with that BMP.
const UNREAD: [u8; 5] = [0x06, 0x0F, 0x02, 0xD0, 0x00];

pub fn all(alloc: Global) -> bool {
    fed(alloc)
        && viewed(alloc)
        && reserved(alloc)
        && refused(alloc)
        && passed(alloc)
        && held(alloc)
        && judged()
}

fn fed(alloc: Global) -> bool {
    let mut stream = Stream::new(alloc);
    let first: Result<Fed, FeedError> = stream.feed(alloc, &[0x80, 0x00]);
    if !matches!(first, Ok(Fed::More)) || stream.held() != 2 || stream.levels() != 1 {
        return false;
    }
    let cut_off: Result<(), Truncated> = stream.finish();
    if !matches!(cut_off, Err(Truncated { have: 2 })) {
        return false;
    }
    matches!(
        stream.feed(alloc, &[0x00]),
        Ok(Fed::Message { taken: 1, .. })
    )
}

fn viewed(alloc: Global) -> bool {
    let mut stream = Stream::loose(alloc);
    let fed: Result<FedView, FeedError> = stream.feed_view(&ACK);
    matches!(fed, Ok(FedView::Message { taken: 3 })) && stream.lent().is_some()
}

fn reserved(alloc: Global) -> bool {
    let Ok(mut stream) = Stream::reserved_of(alloc, Lengths::Padded) else {
        return false;
    };
    matches!(
        stream.feed_view(&[0x80, 0x00, 0xFF, 0x00, 0x00]),
        Ok(FedView::Message { taken: 5 })
    )
}

fn refused(alloc: Global) -> bool {
    let Ok(mut stream) = Stream::reserved(alloc) else {
        return false;
    };
    let why = match stream.feed(alloc, &UNKNOWN) {
        Ok(Fed::Refused { place: 3, why }) => why,
        _ => return false,
    };
    why == Why::UnknownField && matches!(stream.feed_view(&ACK), Err(FeedError::Stopped))
}

fn passed(alloc: Global) -> bool {
    let form = LineForm {
        lengths: Lengths::Padded,
        passes: true,
    };
    let Ok(mut reserved) = Stream::reserved_reading(alloc, form) else {
        return false;
    };
    let mut stream = Stream::open(alloc);
    let within = stream.feed_view(&UNREAD[..4]);
    let view = stream.feed_view(&UNREAD[4..]);
    let lent = stream.lent_bytes().is_some();
    matches!(within, Ok(FedView::More))
        && matches!(view, Ok(FedView::Message { taken: 1 }))
        && lent
        && matches!(
            reserved.feed(alloc, &UNREAD),
            Ok(Fed::Message { taken: 5, .. })
        )
        && matches!(reserved.feed_view(&ACK), Ok(FedView::Message { taken: 3 }))
}

fn held(alloc: Global) -> bool {
    let mut grown = Held::new(alloc);
    let Ok(mut reserved) = Held::reserved(alloc) else {
        return false;
    };
    if grown.add(0x80).is_err() || reserved.add(0x80).is_err() {
        return false;
    }
    reserved.cut(0);
    grown.len() == 1 && reserved.len() == 0
}

fn judged() -> bool {
    let mut steps = Steps::new();
    let mut strict = Judge::new();
    let mut loose = Judge::loose();
    let opened: Result<Judged, Why> = strict.step(&mut steps, 0x80);
    let also = loose.step(&mut steps, 0x80);
    matches!(opened, Ok(Judged::Open)) && matches!(also, Ok(Judged::Open)) && strict.levels() == 1
}
