//! Journals in memory: what a crash left, and each moment of records that are added.
ghost use Rattle.std.specs.Prelude.{◌≡◌, length, IfOk};
ghost use Rattle.zvt_journal.specs.Memory.{memory_bytes};
ghost use Rattle.zvt_journal.specs.Text.{IsSettled};

use crate::assertions::assert_equal;
use std::alloc::Global;
use std::test::Fail;
use zvt_journal::{Journal, Memory, Tear, is_record, open, torn};

/// What opening a file of these bytes recovers, and the file after it.
fn opened(alloc: Global, bytes: &[u8]) -> Result<(Vec<u8>, Memory), Fail>
    ensures { IfOk result (λ pair. IsSettled (memory_bytes pair.1) (λ file. file ≡ memory_bytes pair.1)
        (length pair.0.items)) }
{
    let mut file = Memory::new(alloc, bytes.to_vec(alloc)?);
    let text = open(&mut file, bytes.to_vec(alloc)?)?;
    Ok((text, file))
}

/// Whether each file that a crash leaves between these contents recovers as one of the two texts.
fn recovers(alloc: Global, old: &[u8], new: &[u8], texts: [&[u8]; 2]) -> Result<bool, Fail> {
    for at in 0..=old.len().max(new.len()) {
        for tear in [Tear::First, Tear::Last, Tear::Padded] {
            let left = torn(alloc, old, new, at, tear)?;
            let (text, _) = opened(alloc, &left)?;
            if !texts.contains(&text.as_slice()) {
                return Ok(false);
            }
        }
    }
    Ok(true)
}

/// Adds a payment and the loss of its line at once to the file that a crash left, and returns the file.
fn added(alloc: Global, left: &[u8]) -> Result<Memory, Fail> {
    let (text, device) = opened(alloc, left)?;
    let gate = text.len();
    let mut journal = Journal {
        alloc,
        device,
        gate,
    };
    let first = b"# pay 1234\n> 0601\n".to_vec(alloc)?;
    let second = b"!\n".to_vec(alloc)?;
    let entries = vec![in alloc; first, second]?;
    journal.reserve()?;
    journal.append_all(&entries)?;
    Ok(journal.device)
}

#[test]
fn each_tear_leaves_whole_records(rt: HostRuntime) -> Result<(), Fail> {
    let alloc = rt.alloc();
    let left = b"!\n\n pay".as_slice();
    let device = added(alloc, left)?;
    let (none, one) = (b"!\n".as_slice(), b"!\n# pay 1234\n> 0601\n".as_slice());
    let both = b"!\n# pay 1234\n> 0601\n!\n".as_slice();
    let mut old = left;
    for new in device.past() {
        assert!(rt; recovers(alloc, old, new, [none, one])?);
        old = new;
    }
    let new = device.bytes();
    assert_equal(&rt, &new, &b"!\n# pay 1234\n> 0601\n!\n\n".as_slice());
    assert!(rt; recovers(alloc, old, new, [one, both])?);
    assert!(rt; !recovers(alloc, old, new, [none, one])?);
    Ok(())
}

#[test]
fn what_a_crash_left_is_dropped(rt: HostRuntime) -> Result<(), Fail> {
    for left in [b"!\n\n 0600\n".as_slice(), b"!\n< 06"] {
        let (text, file) = opened(rt.alloc(), left)?;
        assert_equal(&rt, &text.as_slice(), &b"!\n".as_slice());
        assert_equal(&rt, &file.bytes(), &b"!\n\n".as_slice());
    }
    Ok(())
}

#[test]
fn records_are_recognised(rt: HostRuntime) {
    let rows: [(&[u8], bool); 5] = [
        (b"# pay 1234\n> 0601\n", true),
        (b"", false),
        (b"\n", false),
        (b"!", false),
        (b"!\n\n< 06\n", false),
    ];
    for (bytes, wanted) in rows {
        assert_equal(&rt, &is_record(bytes), &wanted);
    }
}
