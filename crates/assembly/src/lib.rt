#![tactic(auto)]

// Joining members into one text: all prepared, compared, and emitted one behind the other.
ghost use Rattle.std.specs.Prelude.{◌≡◌, ℕ, ◌+◌, ◌≤◌, ◌<◌, length};
ghost use Rattle.walk.specs.Outcome.{outcome};
ghost use Rattle.walk.specs.Steps.{judge};
ghost use Rattle.members.specs.Members.{all_files, all_prepared, AllLie};
ghost use Rattle.assembled.specs.Assemble.{assemble_prepared, assemble as assemble_of};
ghost use Rattle.joining.specs.Joining.{CanEmit};
ghost use Rattle.assembly.specs.Parts.{read_assembled, AssembledWithin};

use answer::Refusal;
use members::{Assembly, Member};
use put::running::RunningText;

// All members one behind the other, then the last LF, with 17 at the last member. Answers how long the text is.
fn emit_all(
    assembly: Assembly,
    contents: &[u8],
    limit: usize,
    work: &mut [u8],
) -> Result<usize, Refusal>
    requires { CanEmit assembly.index.now contents.now assembly.members.now limit work.old }
    ensures by_index { (B n : ℕ) → read_assembled n result work.new
        ≡ outcome (judge B limit n (assemble_prepared assembly.entry.url.now (all_prepared assembly.entry.index.now contents.now work.old assembly.entry.members.now))) }
    ensures assembled_within { AssembledWithin result limit }
{
    let mut running = RunningText {
        limit,
        contents,
        work,
        at: 0,
    };
    let mut file = 0;
    for (i, member) in assembly.members.iter().enumerate() {
        joining::emit(assembly, *member, i, &mut running)?;
        file = member.file;
    }
    joining::answer_of(running.put_bytes(b"\n"), file)?;
    Ok(running.at)
}

// Where the table of marks ends: it has as many bytes as the limit or, where the contents are more, as many as these, as far as there is room.
fn table_end(table: usize, limit: usize, contents: usize, work: usize) -> usize
    requires { (1 ≤ limit) × (table + limit ≤ work) }
    ensures { (table < result) × (result ≤ work) }
{
    table + limit.max(contents).min(work - table)
}

// Assembles members into the front of the work buffer. Their texts that lie in it stand from the limit up to the table. Answers how long the text is.
pub fn assemble(
    index: &[u8],
    contents: &[u8],
    url: &[u8],
    members: &mut [Member],
    limit: usize,
    table: usize,
    work: &mut [u8],
) -> Result<usize, Refusal>
    requires { AllLie index.now (length contents.now) limit table members.old × ((limit ≤ table) × ((1 ≤ limit) × (table + limit ≤ length work.old))) }
    ensures by_index { (B n : ℕ) → read_assembled n result work.new ≡ outcome (judge B limit n (assemble_of url.now (all_files index.now contents.now work.old members.old))) }
    ensures assembled_within { AssembledWithin result limit }
{
    preparation::prepare_all(contents, work, members)?;
    let end = table_end(table, limit, contents.len(), work.len());
    if let Some((first, second)) = shared::compare(index, contents, members, table, end, work) {
        return Err(Refusal::SharedAnchor(first, second));
    }
    let assembly = Assembly {
        index,
        url,
        members,
    };
    emit_all(assembly, contents, limit, work)
}
