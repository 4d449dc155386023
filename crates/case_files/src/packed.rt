// The texts of packed cases: a header line with their sizes, and then these texts. A read that fails ends the input.
ghost use Rattle.std.specs.Prelude.{◌≡◌, ◌⊎◌, ℕ, List, length, min, IfOk, IfErr, IfSome, OnOk};
ghost use Rattle.std.specs.Io.KnownBytes.{Consumes};
ghost use Rattle.arrayvec.specs.ArrayVec.{array_vec_len};
ghost use Rattle.case_files.specs.Packed.{Announced, Headed};

use crate::read::{ROOM, fill, skip};
use crate::{Text, Texts};
use arrayvec::ArrayVec;
use case_text::LIMIT;
use case_text::headers::{HEADER, read_header};
use case_text::stop::Stop;
use std::io::Read;

// The texts of the next case, read into the rooms that are lent, in place of what was there; `None` where the input ends before it.
pub fn read_texts<'a, R: Read>(
    input: &mut R,
    texts: &'a mut Texts,
) -> Result<Option<&'a Texts>, Stop>
    ensures announced { IfOk result (λ case. IfSome case (λ texts. Announced texts.now)) }
    ensures headed { IfOk result (λ case. IfSome case (λ texts. IfSome (R.remaining input.old) (λ bytes. Headed bytes texts.now))) }
    ensures broken { IfErr result (λ stop. (stop ≡ Stop.Header) ⊎ (stop ≡ Stop.Case)) }
{
    let mut line = ArrayVec::<u8, 41>::new();
    let mut room = [0u8; ROOM];
    let _failed = fill(input, &mut room, HEADER, &mut line);
    if line.is_empty() {
        return Ok(None);
    }
    let sizes = read_header(&line).ok_or(Stop::Header)?;
    read_text(input, &mut room, sizes.chart, &mut texts.chart)?;
    read_text(input, &mut room, sizes.queries, &mut texts.queries)?;
    read_text(input, &mut room, sizes.rooms, &mut texts.rooms)?;
    read_text(input, &mut room, sizes.batches, &mut texts.batches)?;
    read_text(input, &mut room, sizes.log, &mut texts.log)?;
    Ok(Some(texts))
}

// A text of this size, read and not converted: what is past the limit is read and dropped.
fn read_text<R: Read>(
    input: &mut R,
    room: &mut [u8; ROOM],
    size: usize,
    text: &mut Text,
) -> Result<(), Stop>
    ensures whole { OnOk result (array_vec_len text.new ≡ min size 65536) }
    ensures taken { OnOk result ((bytes : List ℕ) × (length bytes ≡ size) × Consumes (R.remaining input.old) (R.remaining input.new) bytes) }
    ensures broken { IfErr result (λ stop. stop ≡ Stop.Case) }
{
    let kept = size.min(LIMIT);
    let _failed = fill(input, room, kept, text);
    if text.len() < kept {
        return Err(Stop::Case);
    }
    if !skip(input, room, size - kept) {
        return Err(Stop::Case);
    }
    Ok(())
}
