#![tactic(auto)]

// A member behind the text so far, with what joins it: 16, then its lines, then 17.
ghost use Rattle.std.specs.Prelude.{◌++◌, ◌≡◌, ◌≤◌, Contains};
ghost use Rattle.put.specs.Running.{Kept, Ran, text_of};
ghost use Rattle.members.specs.Members.{text_source};
ghost use Rattle.emission.specs.Emission.{emitted_text};
ghost use Rattle.joining.specs.Joining.{rule_before, emit_of, target_of, prepared_of, put_answer, Emits, AddedBehind};

use answer::{Place, Refusal};
use members::{Assembly, Member};
use put::running::RunningText;

// A member with its headings moved, with i members before it, behind the text so far and what joins it: nothing where i is 0. None: it would go over the limit.
fn put_behind(
    assembly: Assembly,
    member: Member,
    i: usize,
    shift: i32,
    running: &mut RunningText,
) -> Option<()>
    requires can { Emits running.old assembly }
    requires among { Contains assembly.members.now member × (running.old.at ≤ running.old.limit) }
    ensures same_reference { running.new.work.ghost_name ≡ running.old.work.ghost_name }
    ensures ran { Ran (rule_before i ++ emitted_text (target_of running.old assembly.entry member) shift (text_of running.old (text_source member))) running.old running.new result }
{
    running.put_between(i, b"\n\n---\n\n")?;
    let name = &assembly.index[member.name.start..member.name.end];
    let dir = &name[..path::parent_dir(name)];
    emission::put_lines(assembly, member.text(), dir, shift, running)
}

// That a text was put, or 17 at a file.
pub fn answer_of(put: Option<()>, file: usize) -> Result<(), Refusal>
    ensures { result ≡ put_answer file put }
{
    put.ok_or(Refusal::TextLimit(Place { file, line: 0 }))
}

// A member of an assembly, with i members before it, behind the text so far: 16, then the member, then 17.
pub fn emit(
    assembly: Assembly,
    member: Member,
    i: usize,
    running: &mut RunningText,
) -> Result<(), Refusal>
    requires can { Emits running.old assembly }
    requires among { Contains assembly.members.now member × (running.old.at ≤ running.old.limit) }
    ensures same_reference { running.new.work.ghost_name ≡ running.old.work.ghost_name }
    ensures kept { Kept running.old running.new }
    ensures added { AddedBehind (emit_of running.old assembly.entry) (prepared_of running.old assembly.entry member) i running.old running.new result }
{
    let text = running.bytes(member.text());
    match outline::shift_below(text, member.outline.levels) {
        Ok(shift) => {
            let put = put_behind(assembly, member, i, shift, running);
            answer_of(put, member.file)
        }
        Err(line) => Err(Refusal::HeadingLevel(Place {
            file: member.file,
            line,
        })),
    }
}
