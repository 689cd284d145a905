//! The lines of epochs.

ghost use Rattle.std.specs.Prelude.{◌≡◌, ◌++◌, List, ℕ, All, IfOk, OnOk, OnErr};
ghost use Rattle.std.specs.Option.{ForSome};
ghost use Rattle.ssq_time.specs.Time.{IsStampTime};
ghost use Rattle.ssq_desk.specs.declared.told.Told.{Told as ToldOf};
ghost use Rattle.ssq_runner.specs.Told.{told_line, told_text, done_line};

use ssq_desk::Told;
use ssq_plans::Writer;
use std::alloc::{AllocError, Global};

/// The line of an epoch.
fn told_line(alloc: Global, told: Told) -> Result<Vec<u8>, AllocError>
    requires { ForSome told.watermark IsStampTime }
    ensures { IfOk result (λ line. line.items ≡ told_line told) }
{
    let mut line = Writer::new(alloc);
    line.put_number(b"epoch ", told.epoch as u64);
    line.put_number(b" lines ", told.lines);
    line.put_time(b" watermark ", told.watermark);
    line.put_number_line(b" rows ", told.rows);
    line.into_vec()
}

/// Adds the line of an epoch. After an `Err` the text is as before.
fn push_told(alloc: Global, text: &mut Vec<u8>, told: Told) -> Result<(), AllocError>
    requires { ForSome told.watermark IsStampTime }
    ensures ok { OnOk result (text.new.items ≡ text.old.items ++ told_line told) }
    ensures err { OnErr result (text.new.items ≡ text.old.items) }
{
    let line = told_line(alloc, told)?;
    text.extend_from_slice(line.as_slice())
}

/// Adds the lines of epochs, one after the other. After an `Err` those of the first ones are added.
pub(crate) fn push_all(alloc: Global, text: &mut Vec<u8>, told: &[Told]) -> Result<(), AllocError>
    requires { All (λ told. ForSome told.watermark IsStampTime) told.now }
    ensures ok { OnOk result (text.new.items ≡ text.old.items ++ told_text told.now) }
    ensures err { OnErr result ((first rest : List ToldOf) × (told.now ≡ first ++ rest) × (text.new.items ≡ text.old.items ++ told_text first)) }
{
    for one in told {
        push_told(alloc, text, *one)?;
    }
    Ok(())
}

/// Adds the last line of a run that was done to its end. After an `Err` the text is as before.
pub(crate) fn push_done(alloc: Global, text: &mut Vec<u8>, epochs: u32) -> Result<(), AllocError>
    ensures ok { OnOk result (text.new.items ≡ text.old.items ++ done_line epochs) }
    ensures err { OnErr result (text.new.items ≡ text.old.items) }
{
    let line = format!(in alloc; "done epochs {epochs}\n")?;
    text.extend_from_slice(line.as_bytes())
}
