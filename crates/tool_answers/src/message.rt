// The lines on the error stream: who speaks, a colon and a blank, and what is said.
ghost use Rattle.std.specs.Prelude.{◌≡◌, ◌++◌, IfOk, OnOk};
ghost use Rattle.account_model.specs.Messages.{line_by, messages, speaker};

use account_model::Tool;
use acct_text::Piece::Text;
use acct_text::{Bytes, Names};
use std::alloc::{AllocError, Global};

/// Adds the line that says the text: of the tool, or of `accounts` where no tool is known.
///
/// At `AllocError` a front of the line may have been added.
pub fn push_line(err: &mut Bytes, tool: Option<Tool>, text: &[u8]) -> Result<(), AllocError>
    ensures { OnOk result (err.new ≡ err.old ++ line_by tool text.now) }
{
    err.push_pieces(&[Text(speaker(tool)), Text(b": "), Text(text), Text(b"\n")])
}

/// The lines of a tool's notices, one for each.
pub fn messages(alloc: Global, tool: Tool, notices: &Names) -> Result<Bytes, AllocError>
    ensures { IfOk result (λ err. err ≡ messages tool notices.now) }
{
    let mut err = Bytes::new(alloc);
    for notice in notices.as_slice() {
        push_line(&mut err, Some(tool), notice.as_slice())?;
    }
    Ok(err)
}

/// Who speaks: the tool by its name, or `accounts` where no tool is known.
pub fn speaker(tool: Option<Tool>) -> &'static [u8]
    ensures { result.now ≡ speaker tool }
{
    match tool {
        Some(tool) => tool.name().as_bytes(),
        None => b"accounts",
    }
}
