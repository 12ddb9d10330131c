//! The state of the till, as `GET /status` tells it.
ghost use Rattle.std.specs.Prelude.{◌≡◌, ◌++◌, OnOk, Some, option_map};
ghost use Rattle.zvt_serve.specs.Status.{book_word, line_word, running_key_part, running_part, status_text, sums_text};
ghost use Rattle.zvt_serve.specs.Status.{unended_part};

use crate::answers::{order_name, put_bool, put_letters};
use std::alloc::AllocError;
use zvt_kept::PastOrder;
use zvt_text::Text;
use zvt_till::{Order, Till};

/// Appends the state of a till, whether its book failed, and its last order while that is running.
///
/// Fails only if an allocation fails; the text is then incomplete.
#[tactic(auto, unfolding(crate::specs::Status::status_text))]
pub(crate) fn put_status(
    text: &mut Text,
    failed: bool,
    till: &Till,
    last: Option<&PastOrder>,
) -> Result<(), AllocError>
    ensures { OnOk result (text.new ≡ text.old
        ++ status_text failed till.now.state (option_map (λ past. past.now) last.entry)) }
{
    text.word(b"{\"book\":")?;
    put_book(text, failed)?;
    text.word(b",\"booked\":")?;
    text.number(till.book().len())?;
    text.word(b",\"line\":")?;
    put_line(text, till.line_up())?;
    text.word(b",\"registered\":")?;
    put_bool(text, till.registered())?;
    put_running(text, last)?;
    put_sums(text, till)
}

fn put_book(text: &mut Text, failed: bool) -> Result<(), AllocError>
    ensures { OnOk result (text.new ≡ text.old ++ book_word failed) }
{
    if failed {
        text.word(b"\"failed\"")
    } else {
        text.word(b"\"open\"")
    }
}

fn put_line(text: &mut Text, up: bool) -> Result<(), AllocError>
    ensures { OnOk result (text.new ≡ text.old ++ line_word up) }
{
    if up {
        text.word(b"\"up\"")
    } else {
        text.word(b"\"down\"")
    }
}

/// Writes the running order and its key, if an order is running.
fn put_running(text: &mut Text, last: Option<&PastOrder>) -> Result<(), AllocError>
    ensures { OnOk result (text.new ≡ text.old ++ running_part (option_map (λ past. past.now) last.entry)) }
{
    match last {
        Some(past) if past.outcome.is_none() => {
            put_unended(text, &past.order, past.note.reference())
        }
        _ => Ok(()),
    }
}

#[tactic(auto, unfolding(crate::specs::Status::unended_part))]
fn put_unended(text: &mut Text, order: &Order, key: Option<&[u8]>) -> Result<(), AllocError>
    ensures { OnOk result (text.new ≡ text.old
        ++ unended_part order.now (option_map (λ k. k.now) key.entry)) }
{
    text.word(b",\"running\":\"")?;
    text.word(order_name(order).as_bytes())?;
    text.word(b"\"")?;
    put_running_key(text, key)
}

fn put_running_key(text: &mut Text, key: Option<&[u8]>) -> Result<(), AllocError>
    ensures { OnOk result (text.new ≡ text.old ++ running_key_part (option_map (λ k. k.now) key.entry)) }
{
    match key {
        Some(key) => put_running_letters(text, key),
        None => Ok(()),
    }
}

fn put_running_letters(text: &mut Text, key: &[u8]) -> Result<(), AllocError>
    ensures { OnOk result (text.new ≡ text.old ++ running_key_part (Some key.now)) }
{
    text.word(b",\"running_key\":\"")?;
    put_letters(text, key)?;
    text.word(b"\"")
}

#[tactic(auto, unfolding(crate::specs::Status::sums_text))]
fn put_sums(text: &mut Text, till: &Till) -> Result<(), AllocError>
    ensures { OnOk result (text.new ≡ text.old ++ sums_text till.now.state) }
{
    text.word(b",\"total\":")?;
    text.number(till.total())?;
    text.word(b",\"unclear\":")?;
    text.number(till.unclear().len())?;
    text.word(b"}\n")
}
