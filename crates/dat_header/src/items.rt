// Words, numbers and texts, each read at its place and answered with the place after it.

ghost use Rattle.std.specs.Prelude.{◌≡◌, ◌+◌, ◌^◌, ◌<◌, ◌≤◌, length, IfOk};
ghost use Rattle.trace_base.specs.declared.order.Order.TheVariants.{Little};
ghost use Rattle.dat_header.specs.Allowed.{IsSystemName};
ghost use Rattle.dat_header.specs.Header.{IsRefusal};
ghost use Rattle.trace_outside.specs.Seen.{file_seen};
ghost use Rattle.dat_header.specs.Steps.{Finds, GivesThere, Passes};
ghost use Rattle.dat_header.specs.ItemsAt.{word_in, word_at, bytes_at, number_at, text_at, name_at};

use dat_options::OpenFault;
use std::alloc::Global;
use trace_base::{ByteText, Order, read_u32, read_u64};
use trace_outside::{File, read_all, read_bytes, read_piece};

// As many of the bytes that are asked for as are there.
pub(crate) fn read_there<F: File>(
    file: &mut F,
    at: u64,
    into: &mut [u8],
) -> Result<usize, OpenFault>
    requires inside { at ≤ F.size file.old }
    ensures { GivesThere at into.new (file_seen F.File file.old) (file_seen F.File file.new) result }
{
    let there = (file.len() - at).min(into.len() as u64) as usize;
    read_all(file, at, &mut into[..there])?;
    Ok(there)
}

// A word that has to stand there.
pub(crate) fn read_word<F: File, const N: usize>(
    file: &mut F,
    at: u64,
    word: &[u8; N],
    wrong: OpenFault,
) -> Result<u64, OpenFault>
    requires inside { at ≤ F.size file.old }
    requires refusal { IsRefusal wrong }
    ensures { Passes (word_at word.now wrong) at F.File file.old file.new result }
{
    let mut buffer = [0; N];
    let count = read_there(file, at, &mut buffer)?;
    word_in(&buffer[..count], word, wrong, at, file.len())
}

// The place after a word that begins at `at`, where these bytes are there of it in a file of that size.
pub(crate) fn word_in(
    there: &[u8],
    word: &[u8],
    wrong: OpenFault,
    at: u64,
    size: u64,
) -> Result<u64, OpenFault>
    requires few { length there.now ≤ length word.now }
    requires inside { at + length there.now ≤ size }
    ensures { result ≡ word_in word.now wrong there.now at size }
{
    if there == word {
        Ok(at + word.len() as u64)
    } else if word.starts_with(there) {
        Err(OpenFault::Truncated(size))
    } else {
        Err(wrong)
    }
}

pub(crate) fn read_byte<F: File>(file: &mut F, at: u64) -> Result<(u8, u64), OpenFault>
    requires inside { at ≤ F.size file.old }
    ensures behind { IfOk result (λ found. found.1 ≡ at + 1) }
    ensures steps { Finds (number_at 1 Little) at F.File file.old file.new result }
{
    let mut bytes = [0; 1];
    read_piece(file, at, &mut bytes)?;
    Ok((bytes[0], at + 1))
}

pub(crate) fn read_number<F: File>(
    order: Order,
    file: &mut F,
    at: u64,
) -> Result<(u32, u64), OpenFault>
    requires inside { at ≤ F.size file.old }
    ensures { Finds (number_at 4 order) at F.File file.old file.new result }
{
    let mut bytes = [0; 4];
    read_piece(file, at, &mut bytes)?;
    Ok((read_u32(order, &bytes), at + 4))
}

pub(crate) fn read_long_number<F: File>(
    order: Order,
    file: &mut F,
    at: u64,
) -> Result<(u64, u64), OpenFault>
    requires inside { at ≤ F.size file.old }
    ensures { Finds (number_at 8 order) at F.File file.old file.new result }
{
    let mut bytes = [0; 8];
    read_piece(file, at, &mut bytes)?;
    Ok((read_u64(order, &bytes), at + 8))
}

// So many bytes.
pub(crate) fn read_content<F: File>(
    alloc: Global,
    size: u64,
    file: &mut F,
    at: u64,
) -> Result<(ByteText, u64), OpenFault>
    requires inside { at ≤ F.size file.old }
    ensures long { IfOk result (λ found. length found.0 ≡ size) }
    ensures steps { Finds (bytes_at size) at F.File file.old file.new result }
{
    let text = read_bytes(alloc, file, at, size)?;
    Ok((text, at + size))
}

// A text, preceded by its 32-bit size.
pub(crate) fn read_text<F: File>(
    alloc: Global,
    order: Order,
    file: &mut F,
    at: u64,
) -> Result<(ByteText, u64), OpenFault>
    requires inside { at ≤ F.size file.old }
    ensures short { IfOk result (λ found. length found.0 < 2 ^ 32) }
    ensures steps { Finds (text_at 4 order) at F.File file.old file.new result }
{
    let (size, after) = read_number(order, file, at)?;
    read_content(alloc, size as u64, file, after)
}

// A text, preceded by its 64-bit size.
pub(crate) fn read_long_text<F: File>(
    alloc: Global,
    order: Order,
    file: &mut F,
    at: u64,
) -> Result<(ByteText, u64), OpenFault>
    requires inside { at ≤ F.size file.old }
    ensures short { IfOk result (λ found. length found.0 < 2 ^ 64) }
    ensures steps { Finds (text_at 8 order) at F.File file.old file.new result }
{
    let (size, after) = read_long_number(order, file, at)?;
    read_content(alloc, size, file, after)
}

// A name and the NUL after it.
pub(crate) fn read_name<F: File>(
    alloc: Global,
    file: &mut F,
    at: u64,
) -> Result<(ByteText, u64), OpenFault>
    requires inside { at ≤ F.size file.old }
    ensures allowed { IfOk result (λ found. IsSystemName found.0) }
    ensures steps { Finds name_at at F.File file.old file.new result }
{
    let mut name = Vec::new(alloc);
    let mut place = at;
    loop {
        let (byte, after) = read_byte(file, place)?;
        place = after;
        if byte == 0 {
            return Ok((ByteText::from_vec(name), place));
        }
        let Ok(()) = name.push(byte) else {
            return Err(OpenFault::Memory);
        };
    }
}
