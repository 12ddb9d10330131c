//! Devices (`zvt_io`), and the engine of a line (`zvt_stream`).
use std::alloc::{AllocError, Global};
use zvt_apdu::ApduView;
use zvt_io::{Failed, Over, Sink, Source};
use zvt_stream::{Answers, LineFault, Machine, Stream, Until, pump, send};

const ACK: [u8; 3] = [0x80, 0x00, 0x00];

/// Answers each message until it rests, and remembers how its line ended.
#[derive(Drop)]
struct Echo {
    left: u8,
    faults: u8,
}

impl Machine for Echo {
    ghost use Rattle.std.specs.Prelude.{⊤, false, nat_eq};

    ghost hears = { λ _ _ _ _. ⊤ };

    ghost loses = { λ _ _. ⊤ };

    ghost malforms = { λ _ _. ⊤ };

    ghost is_resting = { λ echo. nat_eq echo.left 0 };

    ghost wants_memory = { false };

    fn hear(&mut self, _alloc: Global, _apdu: &ApduView<'_>) -> Result<Answers, AllocError> {
        self.left = self.left.saturating_sub(1);
        let mut answers = Answers::new();
        answers.add(&ACK);
        Ok(answers)
    }

    fn resting(&self) -> bool {
        self.left == 0
    }

    fn lost(&mut self) {
        self.faults = 1;
    }

    fn malformed(&mut self) {
        self.faults = 2;
    }
}

pub fn all(alloc: Global) -> bool {
    devices(alloc) && answers() && answered(alloc)
}

fn devices(alloc: Global) -> bool {
    let mut reader = Over::new(ACK.as_slice());
    let mut writer = Over::new(Vec::new(alloc));
    let mut buffer = [0; 4];
    let count: Result<usize, Failed> = reader.read(&mut buffer);
    let written: Result<(), Failed> = writer.write_all(&ACK);
    count == Ok(3) && written == Ok(()) && send(&mut writer, &ACK) == Ok(())
}

fn answers() -> bool {
    let mut answers = Answers::new();
    answers.add(&ACK);
    answers.count() == 1 && answers.bytes().len() == 3
}

/// Two messages are answered, and then a message is cut off.
fn answered(alloc: Global) -> bool {
    let mut reader = Over::new([0x80, 0x00, 0x00, 0x80, 0x00].as_slice());
    let mut writer = Over::new(Vec::new(alloc));
    let mut stream = Stream::new(alloc);
    let mut echo = Echo { left: 2, faults: 0 };
    let sent = pump(
        alloc,
        &mut reader,
        &mut writer,
        &mut stream,
        &mut echo,
        Until::Sent,
        10,
    );
    let ended = pump(
        alloc,
        &mut reader,
        &mut writer,
        &mut stream,
        &mut echo,
        Until::Rest,
        10,
    );
    sent == Ok(()) && ended == Err(LineFault::Ended { have: 2 }) && echo.faults == 1
}
