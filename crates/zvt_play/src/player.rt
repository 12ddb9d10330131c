//! Plays a script over one connection.
ghost use Rattle.std.specs.Prelude.{◌≡◌, ◌≢◌, ◌+◌, ◌<◌, ◌≤◌, [], ℕ, List, Option};
ghost use Rattle.std.specs.Prelude.{IfErr, IfOk, MatchResult, OnOk};
ghost use Rattle.std.specs.Prelude.{length, take};
ghost use Rattle.std.specs.Io.KnownBytes.{Appends};
ghost use Rattle.zvt_io.specs.Devices.{IsPrefix};
ghost use Rattle.zvt_stream.specs.LineReading.{LineReading};
ghost use Rattle.zvt_apdu.specs.Message.{Message};
ghost use Rattle.zvt_stream.specs.StreamState.{StreamState};
ghost use Rattle.zvt_play.specs.Numbers.{longest_line, sent_as, used, with_end};
ghost use Rattle.zvt_play.specs.Playing.{IsReady, PlaysStep, PlaysTo, Stops, StopsPlay, WritesAll, acts_of, line_state};
ghost use Rattle.zvt_play.specs.Playing.{failed_reads, failed_writes};
ghost use Rattle.zvt_play.specs.Script.{act_of, send};
ghost use Rattle.zvt_play.specs.Unheard.{unheard_in};

use crate::difference::{Difference, Unplayed};
use crate::messages::hear;
use crate::numbers::{Names, Number};
use crate::step::{Action, ScriptStep};
use crate::unheard::Unheard;
use std::rt::Clock;
use std::thread;
use std::time::Duration;
use zvt_io::{Sink, Source};
use zvt_stream::Endpoint;

/// Size of the longest own line that can carry a name's number: a message with a length of one byte.
pub(crate) const LONGEST_LINE: usize = 258;

/// Plays the steps over a new connection, up to the first step that breaks it or waits in silence, or to the end.
/// Returns the number of steps played.
///
/// All bytes received must be expected ones before the player sends a line, before it breaks the connection, and at
/// the end. If a name was prepared, the next line is sent with its number as the last bytes. Names outlive the
/// connection.
pub fn play<C: Clock, R: Source, W: Sink>(
    clock: &C,
    end: &mut Endpoint<R, W>,
    names: &mut Names,
    steps: &[ScriptStep],
) -> Result<usize, Unplayed>
    requires { IsReady end.old.stream.reading end.old.stream }
    ensures sent { IfOk result (λ count. WritesAll (take count (acts_of steps.now)) names.old names.new
        (W.written end.old.writer) (W.written end.new.writer)) }
    ensures sent_before { IfErr result (λ unplayed. unplayed.why ≢ Difference.Write
        → WritesAll (take unplayed.step (acts_of steps.now)) names.old names.new (W.written end.old.writer)
        (W.written end.new.writer)) }
    ensures ok { IfOk result (λ count. PlaysTo end.old.stream.reading steps.now count
        (line_state [] (R.remaining end.old.reader) (W.written end.old.writer) end.old.stream.lent names.old)
        (R.remaining end.new.reader) (W.written end.new.writer) end.new.stream.lent names.new) }
    ensures err { IfErr result (λ unplayed. StopsPlay end.old.stream.reading steps.now unplayed
        (line_state [] (R.remaining end.old.reader) (W.written end.old.writer) end.old.stream.lent names.old)
        (R.remaining end.new.reader) (W.written end.new.writer) end.new.stream names.new) }
    ensures reads { MatchResult result (λ _. R.failures end.new.reader ≡ R.failures end.old.reader)
        (λ unplayed. R.failures end.new.reader ≡ R.failures end.old.reader + failed_reads unplayed.why) }
    ensures writes { MatchResult result (λ _. W.failures end.new.writer ≡ W.failures end.old.writer)
        (λ unplayed. W.failures end.new.writer ≡ W.failures end.old.writer + failed_writes unplayed.why) }
{
    let mut unheard = Unheard::new();
    for (at, step) in steps.iter().enumerate() {
        match take_step(clock, end, &mut unheard, names, &step.action) {
            Ok(true) => {}
            Ok(false) => return Ok(at),
            Err(why) => return Err(Unplayed { step: at, why }),
        }
    }
    let step = steps.len();
    match all_heard(&unheard) {
        Ok(()) => Ok(step),
        Err(why) => Err(Unplayed { step, why }),
    }
}

/// Plays a step. Returns whether the next one is played over this connection too.
fn take_step<C: Clock, R: Source, W: Sink>(
    clock: &C,
    end: &mut Endpoint<R, W>,
    unheard: &mut Unheard,
    names: &mut Names,
    action: &Action,
) -> Result<bool, Difference>
    requires { IsReady end.old.stream.reading end.old.stream }
    ensures ok { IfOk result (λ goes_on. PlaysStep end.old.stream.reading (act_of action.now) goes_on
        (line_state (unheard_in unheard.old) (R.remaining end.old.reader) (W.written end.old.writer) end.old.stream.lent
        names.old) (line_state (unheard_in unheard.new) (R.remaining end.new.reader) (W.written end.new.writer)
        end.new.stream.lent names.new)) }
    ensures ready { OnOk result (IsReady end.old.stream.reading end.new.stream) }
    ensures err { IfErr result (λ why. Stops end.old.stream.reading why (act_of action.now)
        (line_state (unheard_in unheard.old) (R.remaining end.old.reader) (W.written end.old.writer) end.old.stream.lent
        names.old) (line_state (unheard_in unheard.new) (R.remaining end.new.reader) (W.written end.new.writer)
        end.new.stream.lent names.new) end.new.stream) }
    ensures reads { MatchResult result (λ _. R.failures end.new.reader ≡ R.failures end.old.reader)
        (λ why. R.failures end.new.reader ≡ R.failures end.old.reader + failed_reads why) }
    ensures writes { MatchResult result (λ _. W.failures end.new.writer ≡ W.failures end.old.writer)
        (λ why. W.failures end.new.writer ≡ W.failures end.old.writer + failed_writes why) }
{
    match action {
        Action::Send(bytes) => send_step(&mut end.writer, unheard, names, bytes.as_slice())?,
        Action::Await(demanded) => {
            let demanded = demanded.as_slice();
            hear(&mut end.reader, &mut end.stream, unheard, demanded)?;
        }
        Action::Break | Action::Listen(_) => {
            all_heard(unheard)?;
            return Ok(false);
        }
        Action::Wait(milliseconds) => {
            thread::sleep(clock, Duration::from_millis(u64::from(*milliseconds)));
        }
        Action::Silence => return Ok(false),
        Action::Bind { field, name } => names.bind(end.stream.lent(), *field, *name)?,
        Action::Same { field, name } => names.check(end.stream.lent(), *field, *name)?,
        Action::Use { name, .. } => names.prepare(*name),
    }
    Ok(true)
}

/// Sends an own line, with the number of the prepared name if there is one. Fails if unheard bytes are left.
fn send_step<W: Sink>(
    writer: &mut W,
    unheard: &Unheard,
    names: &mut Names,
    bytes: &[u8],
) -> Result<(), Difference>
    ensures ok { OnOk result ((unheard_in unheard.now ≡ []) × (names.new ≡ used names.old)
        × Appends (W.written writer.old) (W.written writer.new) (sent_as names.old.next bytes.now)) }
    ensures err { IfErr result (λ why. (r : LineReading) → (coming : Option (List ℕ)) → (lent : Option Message)
        → (stream : StreamState) → Stops r why (send bytes.now)
        (line_state (unheard_in unheard.now) coming (W.written writer.old) lent names.old)
        (line_state (unheard_in unheard.now) coming (W.written writer.new) lent names.new) stream) }
    ensures failures { MatchResult result (λ _. W.failures writer.new ≡ W.failures writer.old)
        (λ why. W.failures writer.new ≡ W.failures writer.old + failed_writes why) }
{
    all_heard(unheard)?;
    let number = names.take();
    send_line(writer, number, bytes)
}

/// Writes an own line. A number replaces its last bytes.
fn send_line<W: Sink>(
    writer: &mut W,
    number: Option<Number>,
    bytes: &[u8],
) -> Result<(), Difference>
    ensures ok { OnOk result (Appends (W.written writer.old) (W.written writer.new) (sent_as number bytes.now)) }
    ensures err { IfErr result (λ why. (why ≡ Difference.Write) × (part : List ℕ)
        × IsPrefix part (sent_as number bytes.now) × Appends (W.written writer.old) (W.written writer.new) part) }
    ensures failures { MatchResult result (λ _. W.failures writer.new ≡ W.failures writer.old)
        (λ why. W.failures writer.new ≡ W.failures writer.old + failed_writes why) }
{
    let Some(number) = number else {
        return send(writer, bytes);
    };
    let last = number.bytes();
    if bytes.len() > LONGEST_LINE || last.len() > bytes.len() {
        return send(writer, bytes);
    }
    let mut line = [0; LONGEST_LINE];
    put_line(&mut line, bytes, last);
    send(writer, &line[..bytes.len()])
}

/// Copies the bytes into a line, with others in place of the last ones.
fn put_line(line: &mut [u8; LONGEST_LINE], bytes: &[u8], last: &[u8])
    requires short { length bytes.now ≤ longest_line }
    requires within { length last.now ≤ length bytes.now }
    ensures { take (length bytes.now) line.new ≡ with_end bytes.now last.now }
{
    let start = bytes.len() - last.len();
    line[..start].copy_from_slice(&bytes[..start]);
    line[start..bytes.len()].copy_from_slice(last);
}

/// Writes all the bytes.
fn send<W: Sink>(writer: &mut W, bytes: &[u8]) -> Result<(), Difference>
    ensures ok { OnOk result (Appends (W.written writer.old) (W.written writer.new) bytes.now) }
    ensures err { IfErr result (λ why. (why ≡ Difference.Write) × (part : List ℕ) × IsPrefix part bytes.now
        × Appends (W.written writer.old) (W.written writer.new) part) }
    ensures failures { MatchResult result (λ _. W.failures writer.new ≡ W.failures writer.old)
        (λ why. W.failures writer.new ≡ W.failures writer.old + failed_writes why) }
{
    match writer.write_all(bytes) {
        Ok(()) => Ok(()),
        Err(_) => Err(Difference::Write),
    }
}

/// Checks that no unheard bytes are left. Otherwise the difference has their number.
fn all_heard(unheard: &Unheard) -> Result<(), Difference>
    ensures ok { OnOk result (unheard_in unheard.now ≡ []) }
    ensures err { IfErr result (λ why. (why ≡ Difference.Surplus (length (unheard_in unheard.now)))
        × (0 < length (unheard_in unheard.now))) }
{
    match unheard.len() {
        0 => Ok(()),
        count => Err(Difference::Surplus { count }),
    }
}
