// How lines and answers are shown: as bytes, since by std's formatting a run took up to 1.9 times the time.
use crate::faults::Refused;
use crate::lines::Line;
use crate::quote::quote;
use byte_classes::sets::Text;
use number::write::decimal_u64;
use std::alloc::AllocError;
use text::check::all_in;

// The line as it stands, or in quotes where it would not show as it is.
pub(crate) fn show_line(out: &mut Vec<u8>, line: Line<'_>) -> Result<(), AllocError> {
    out.extend_from_slice(decimal_u64(line.number).text())?;
    out.extend_from_slice(b": ")?;
    if all_in::<Text>(line.text) {
        out.extend_from_slice(line.text)?;
    } else {
        quote(out, line.text)?;
    }
    out.push(b'\n')?;
    Ok(())
}

pub(crate) fn show_answer(
    out: &mut Vec<u8>,
    answer: Result<(), Refused>,
) -> Result<(), AllocError> {
    match answer {
        Ok(()) => out.extend_from_slice(b"   accepted\n")?,
        Err(fault) => {
            out.extend_from_slice(b"   refused ")?;
            out.extend_from_slice(decimal_u64(u64::from(fault.number)).text())?;
            out.push(b'\n')?;
        }
    }
    Ok(())
}

pub(crate) fn show_unreadable(out: &mut Vec<u8>, line: Line<'_>) -> Result<(), AllocError> {
    out.extend_from_slice(b"   line ")?;
    out.extend_from_slice(decimal_u64(line.number).text())?;
    out.extend_from_slice(b" cannot be read\n")?;
    Ok(())
}
