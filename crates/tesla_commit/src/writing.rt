//! Writing a setup's text.

ghost use Rattle.std.specs.Prelude.{◌≡◌, ◌++◌, decimal, string_bytes, codes, take, IfOk, OnOk};
ghost use Rattle.std.specs.Int.{w64, to_be_bytes};
ghost use Rattle.std.specs.List.{flat_map};
ghost use Rattle.hex.specs.Hex.{encode_lower};
ghost use Rattle.tesla_commit.specs.SetupText.{line, version_text, tag_line, chain_values, chain_line, setup_text, IsSetup};

use crate::{ChainRow, Setup};
use std::alloc::{AllocError, Global};
use tesla_base::{NoMemory, Version};

/// The digits of a number.
fn decimal(alloc: Global, number: u64) -> Result<String, AllocError>
    ensures { IfOk result (λ text. string_bytes text ≡ decimal number) }
{
    number.to_string(alloc)
}

/// Adds a name, a space, a value and an LF.
fn put_line(out: &mut Vec<u8>, name: &[u8], value: &[u8]) -> Result<(), AllocError>
    ensures { OnOk result (out.new.items ≡ out.old.items ++ line name.now value.now) }
{
    out.extend_from_slice(name)?;
    out.push(b' ')?;
    out.extend_from_slice(value)?;
    out.push(b'\n')?;
    Ok(())
}

/// Adds a line of a name and a number.
fn put_number(alloc: Global, out: &mut Vec<u8>, name: &[u8], number: u64) -> Result<(), AllocError>
    ensures { OnOk result (out.new.items ≡ out.old.items ++ line name.now (decimal number)) }
{
    let digits = decimal(alloc, number)?;
    put_line(out, name, digits.as_bytes())
}

/// Adds a line of a name and the hexadecimal digits of bytes.
fn put_hex(alloc: Global, out: &mut Vec<u8>, name: &[u8], bytes: &[u8]) -> Result<(), AllocError>
    ensures { OnOk result (out.new.items ≡ out.old.items ++ line name.now (encode_lower bytes.now)) }
{
    let digits = hex::encode(alloc, bytes)?;
    put_line(out, name, digits.as_bytes())
}

/// The values of a chain's line.
fn chain_values(alloc: Global, row: ChainRow) -> Result<Vec<u8>, AllocError>
    ensures { IfOk result (λ text. text.items ≡ chain_values row) }
{
    let delay = decimal(alloc, u64::from(row.delay))?;
    let index = decimal(alloc, u64::from(row.index))?;
    let key = hex::encode(alloc, row.key.0.as_slice())?;
    let mut values = Vec::new(alloc);
    values.extend_from_slice(delay.as_bytes())?;
    values.push(b' ')?;
    values.extend_from_slice(index.as_bytes())?;
    values.push(b' ')?;
    values.extend_from_slice(key.as_bytes())?;
    Ok(values)
}

/// Adds the line of a chain.
fn put_chain(alloc: Global, out: &mut Vec<u8>, row: ChainRow) -> Result<(), AllocError>
    ensures { OnOk result (out.new.items ≡ out.old.items ++ chain_line row) }
{
    let values = chain_values(alloc, row)?;
    put_line(out, b"chain", values.as_slice())
}

/// The number of a version, as line 1 has it.
fn version_text(version: Version) -> &'static [u8]
    ensures { result.now ≡ version_text version }
{
    match version {
        Version::One => b"1",
        Version::Two => b"2",
    }
}

/// Adds the line of the length of tags, which version 1 doesn't have.
fn put_tag(alloc: Global, out: &mut Vec<u8>, setup: &Setup) -> Result<(), AllocError>
    ensures { OnOk result (out.new.items ≡ out.old.items ++ tag_line setup.now.version setup.now.tag_length) }
{
    match setup.format() {
        Version::One => Ok(()),
        Version::Two => put_number(alloc, out, b"tag", u64::from(setup.tag_length())),
    }
}

/// The lines before that of the length of tags.
fn opening(alloc: Global, setup: &Setup) -> Result<Vec<u8>, AllocError>
    ensures { IfOk result (λ text. text.items ≡ line (codes "tesla") (version_text setup.now.version)
        ++ line (codes "stream") (encode_lower (to_be_bytes w64 setup.now.stream.0))
        ++ line (codes "start") (decimal setup.now.times.start)
        ++ line (codes "interval") (decimal setup.now.times.length)
        ++ line (codes "last") (decimal setup.now.times.last)) }
{
    let schedule = setup.schedule();
    let stream = setup.stream().0.to_be_bytes();
    let mut out = Vec::new(alloc);
    put_line(&mut out, b"tesla", version_text(setup.format()))?;
    put_hex(alloc, &mut out, b"stream", stream.as_slice())?;
    put_number(alloc, &mut out, b"start", schedule.start())?;
    put_number(alloc, &mut out, b"interval", u64::from(schedule.length()))?;
    put_number(alloc, &mut out, b"last", u64::from(schedule.last()))?;
    Ok(out)
}

/// The one text of a setup.
#[tactic(auto, unfolding(crate::specs::SetupText::setup_text))]
pub fn write_setup(alloc: Global, setup: &Setup) -> Result<Vec<u8>, NoMemory>
    ensures text { IfOk result (λ text. text.items ≡ setup_text setup.now) }
    // What is written is the text of the setup, as reading finds it.
    ensures spelled { IfOk result (λ text. IsSetup text.items setup.now) }
{
    let mut out = opening(alloc, setup)?;
    put_tag(alloc, &mut out, setup)?;
    for chain in 0..setup.count() {
        put_chain(alloc, &mut out, setup.row(chain))?;
    }
    Ok(out)
}
