// Leaf calls on links and paths.
ghost use Rattle.std.specs.Prelude.{◌≡◌, length};
ghost use Rattle.text.specs.Bytes.{bit};
ghost use Rattle.text.specs.Pattern.{equals as equals_to};
ghost use Rattle.path.specs.Path.{parent_dir, resolve};
ghost use Rattle.link.specs.Target.{target_of, trim_slashes};
ghost use Rattle.leaf.specs.Leaf.{one};
ghost use Rattle.leaf.specs.Link.{written, NextAnswer, SelfAnswer, target_numbers};

use leaf::number;
use link::links;
use link::target::{self, Embedding};
use text::bytes;

// The first link of a line from a place on: 1 and where its target starts and ends, or 0.
#[unsafe(no_mangle)]
pub extern "C" fn leaf_link(line: &[u8], from: u64, answer: &mut [u64; 6])
    ensures { NextAnswer line.now from answer.new }
{
    let found = links::next_link(line, leaf::links::at_most(from, line.len()));
    *answer = leaf::links::of_link(found);
}

// How long the directory of a file is.
#[unsafe(no_mangle)]
pub extern "C" fn leaf_parent(name: &[u8], answer: &mut [u64; 6])
    ensures { answer.new ≡ one (length (parent_dir name.now)) }
{
    let n = path::parent_dir(name);
    *answer = number::one(n as u64);
}

// A path in a directory, once it is resolved: its bytes at the front of the output if there is room, and its length.
#[unsafe(no_mangle)]
pub extern "C" fn leaf_resolve(path: &[u8], dir: &[u8], out: &mut [u8], answer: &mut [u64; 6])
    ensures answer_after { answer.new ≡ one (length (resolve dir.now path.now)) }
    ensures out_after { out.new ≡ written (resolve dir.now path.now) out.old }
{
    let n = resolve::resolved_length(path, dir);
    if out.len() < n {
        *answer = number::one(n as u64);
        return;
    }
    resolve::put_resolved(path, dir, n, out);
    *answer = number::one(n as u64);
}

// Whether a path in a directory, once it is resolved, is a name.
#[unsafe(no_mangle)]
pub extern "C" fn leaf_resolves(path: &[u8], dir: &[u8], name: &[u8], answer: &mut [u64; 6])
    ensures { answer.new ≡ one (bit (equals_to name.now (resolve dir.now path.now))) }
{
    let b = resolve::resolves_to(path, dir, name);
    *answer = number::one(bytes::bit(b) as u64);
}

// A target: 0 if it stays as it is, or 1 and where its path ends.
#[unsafe(no_mangle)]
pub extern "C" fn leaf_target(target: &[u8], answer: &mut [u64; 6])
    ensures { answer.new ≡ target_numbers (target_of target.now) }
{
    let found = target::read_target(target);
    *answer = leaf::links::of_target(found);
}

// From which place on a target's bytes stay in a file that is taken into a host.
#[unsafe(no_mangle)]
pub extern "C" fn leaf_self(target: &[u8], dir: &[u8], host: &[u8], answer: &mut [u64; 6])
    ensures { SelfAnswer host.now dir.now target.now answer.new }
{
    let n = target::anchor_self(target, Embedding { dir, host });
    *answer = number::one(n as u64);
}

// How long a URL is without trailing `/`.
#[unsafe(no_mangle)]
pub extern "C" fn leaf_url(url: &[u8], answer: &mut [u64; 6])
    ensures { answer.new ≡ one (length (trim_slashes url.now)) }
{
    let n = target::url_length(url);
    *answer = number::one(n as u64);
}
