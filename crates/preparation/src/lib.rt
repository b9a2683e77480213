#![tactic(auto)]

// Members prepared one after the other.
ghost use Rattle.std.specs.Prelude.{◌≡◌, length};
ghost use Rattle.preparation.specs.Preparation.{CanPrepare, ReadyOf};

use answer::Refusal;
use members::Member;

// Prepares all members.
pub fn prepare_all(contents: &[u8], work: &[u8], members: &mut [Member]) -> Result<(), Refusal>
    requires { CanPrepare (length contents.now) (length work.now) members.old }
    ensures { ReadyOf contents.now work.now members.old members.new result }
{
    for member in members.iter_mut() {
        let text = member.source.bytes(contents, work);
        member.outline = outline::prepare(text).ok_or(Refusal::NoTitle(member.file))?;
    }
    Ok(())
}
