// Writing a line to a page. What is written reads back.
ghost use Rattle.std.specs.Prelude.{◌≡◌, OnOk};
ghost use Rattle.lines.specs.Line.{ReadsBack};
ghost use Rattle.lines.specs.Page.{model, write_answer, write_left};

use crate::page::Page;
use faults::PageFault;

// A whole line at the page's end, with its line feed. Reading it back gives the same frame and numbers.
pub fn write_line(page: &mut Page, frame: u8, words: &[i32]) -> Result<(), PageFault>
    ensures held { page.new.bytes.ghost_name ≡ page.old.bytes.ghost_name }
    ensures answer { result ≡ write_answer (model page.old) words.now }
    ensures left { model page.new ≡ write_left (model page.old) frame words.now }
    ensures back { OnOk result (ReadsBack frame words.now) }
{
    let token = page.begin(frame, words.len())?;
    for w in words {
        page.put(&token, *w).unwrap();
    }
    page.close(token).unwrap();
    Ok(())
}
