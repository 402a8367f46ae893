//! What is found in the octets of a sign file.
ghost use Rattle.std.specs.Prelude.{◌≡◌, ◌↔◌, [], true, IfOk, OnOk};
ghost use Rattle.sign_report.specs.Document.{IsDocument};
ghost use Rattle.sign_report.specs.Setup.{is_taken};

use crate::judged::{Judged, judged_of};
use sign_file::deep_at;
use sign_words::{
    Findings, encoding_fault, look_at_document, look_at_lines, nesting_fault, syntax_fault,
    untaken_fault,
};
use std::alloc::{AllocError, Global};

/// Tells where a text nests too deep, if it does, and whether it does.
fn look_at_nesting(alloc: Global, found: &mut Findings, text: &str) -> Result<bool, AllocError> {
    let at = match deep_at(alloc, text) {
        Ok(Some(at)) => at,
        Ok(None) => return Ok(false),
        Err(_) => return Err(AllocError),
    };
    let fault = nesting_fault(found, text, at)?;
    found.faults.push(fault)?;
    Ok(true)
}

/// Tells each fault that is found in a text, and what its maker may not have meant.
fn look_at_text(alloc: Global, found: &mut Findings, text: &str) -> Result<(), AllocError> {
    if look_at_nesting(alloc, found, text)? {
        return Ok(());
    }
    let error = match toml::table_from_str(alloc, text) {
        Ok(table) => return look_at_document(found, text, &table),
        Err(error) if error.is_memory() => return Err(AllocError),
        Err(error) => error,
    };
    let at = match error.span() {
        Some(span) => span.start,
        None => 0,
    };
    let fault = syntax_fault(found, text.as_bytes(), at, error.message())?;
    found.faults.push(fault)?;
    Ok(())
}

/// Tells each fault that is found in octets, and what their maker may not have meant.
pub(crate) fn look_at_octets(
    alloc: Global,
    found: &mut Findings,
    octets: &[u8],
) -> Result<(), AllocError> {
    look_at_lines(found, octets)?;
    match str::from_utf8(octets) {
        Ok(text) => look_at_text(alloc, found, text),
        Err(error) => {
            let fault = encoding_fault(found, octets, error.valid_up_to())?;
            found.faults.push(fault)?;
            Ok(())
        }
    }
}

/// Leaves no fault of octets that are taken, and tells one of octets that aren't, if none was found.
pub(crate) fn hold_to(found: &mut Findings, octets: &[u8], taken: bool) -> Result<(), AllocError>
    ensures { OnOk result (found.new.faults.items ≡ [] ↔ taken ≡ true) }
{
    if taken {
        found.clear_faults();
        return Ok(());
    }
    if found.faults.is_empty() {
        let fault = untaken_fault(found, octets)?;
        found.faults.push(fault)?;
    }
    Ok(())
}

/// What is found in the octets of a sign file. There is no fault exactly if the program takes the file. The error says that memory was
/// refused.
pub fn find_in(alloc: Global, octets: &[u8]) -> Result<Findings, AllocError>
    ensures exact { IfOk result (λ found. found.faults.items ≡ [] ↔ is_taken octets.now ≡ true) }
    ensures document { IfOk result (λ found. found.faults.items ≡ [] → IsDocument octets.now) }
{
    let Judged { setup, .. } = judged_of(alloc, octets)?;
    let mut found = Findings::new(alloc);
    look_at_octets(alloc, &mut found, octets)?;
    hold_to(&mut found, octets, setup.is_some())?;
    Ok(found)
}
