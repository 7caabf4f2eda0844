// A whole sheet.
ghost use Rattle.std.specs.Prelude.{◌≡◌, IfOk};
ghost use Rattle.whole_sheets.specs.Sheets.{printed_of, contents_of, sheet_answer};

use sheet_answers::answer;
use sheet_bytes::{feed, start};
use whole_sheets::{SheetContents, SheetRefusal};

// The answer to a whole sheet.
pub fn read_sheet(text: &[u8]) -> Result<SheetContents, SheetRefusal>
    ensures refusal { printed_of result ≡ (sheet_answer text.now).refusal }
    ensures contents { IfOk result (λ c. c ≡ contents_of (sheet_answer text.now)) }
{
    answer(feed(start(), text))
}
