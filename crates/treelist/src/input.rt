// The input, read from standard input to its end. A failed read is told from the end of the input, so that a part of a sheet is
// never taken for the whole.
ghost use Rattle.std.specs.Prelude.{IfOk};
ghost use Rattle.treelist.specs.Input.{Feeds, Reads};
ghost use Rattle.treelist.specs.Sheets.{progress};

use crate::lines::{Sheet, Tokens};
use std::io;
use std::io::Read;

// What a read that put bytes at the start of these comes to, by its result: it failed, and why; 0 is the end of the input; else so many came. Says
// whether more may come.
fn read_result(sheet: &mut Sheet, got: io::Result<usize>, bytes: &[u8]) -> io::Result<bool>
    ensures { Feeds got bytes.now (progress sheet.old) result (progress sheet.new) }
{
    let came = got?;
    sheet.read(&bytes[..came.min(bytes.len())]);
    Ok(0 < came)
}

// The tokens of the whole input; none if a line of it is malformed. After such a line it is read on: a read may still fail.
pub fn read_sheet<R: Read>(input: &mut R) -> io::Result<Option<Tokens>>
    ensures { IfOk result (Reads (R.remaining input.old) (R.remaining input.new)) }
{
    let mut sheet = Sheet::new();
    // Stays an array, as the store in main.rt does.
    let mut bytes = [0u8; 4096];
    // A proved loop has to end: this one has more turns than any input takes.
    for _ in 0..u64::MAX {
        let got = input.read(&mut bytes);
        let goes_on = read_result(&mut sheet, got, &bytes)?;
        if !goes_on {
            return Ok(sheet.finish());
        }
    }
    Err(io::Error::other("its end was not seen"))
}
