// A text that is put into the work buffer, piece after piece. What puts a piece answers None where the piece would go over the limit: after that the value is not to be used, and callers leave by `?`.
ghost use Rattle.std.specs.Prelude.{◌≡◌, ◌+◌, ◌-◌, ◌≤◌, length};
ghost use Rattle.text.specs.Bytes.{part};
ghost use Rattle.put.specs.Put.{Inside};
ghost use Rattle.put.specs.NewText.{LevelIn, level_text};
ghost use Rattle.put.specs.Running.{Fits, Reads, Ran, text_of, between};

use crate::Source;
use heading::level;

// The contents and the work buffer, the place where the next piece goes, and the limit.
#[derive(Drop)]
pub struct RunningText<'c, 'w> {
    pub contents: &'c [u8],
    pub work: &'w mut [u8],
    pub at: usize,
    pub limit: usize,
}

impl RunningText<'_, '_> {
    // The bytes of a source.
    pub fn bytes(&self, source: Source) -> &[u8]
        requires { Inside source 0 (length self.now.contents.now) (length self.now.work.now) }
        ensures text { result.now ≡ text_of self.now source }
        ensures len { length result.now ≡ source.end - source.start }
    {
        source.bytes(self.contents, self.work)
    }

    // A text that lies in neither buffer.
    pub fn put_bytes(&mut self, text: &[u8]) -> Option<()>
        requires { Fits self.old }
        ensures same_reference { self.new.work.ghost_name ≡ self.old.work.ghost_name }
        ensures ran { Ran text.now self.old self.new result }
    {
        if self.limit - self.at < text.len() {
            return None;
        }
        self.at = buffer::copy(text, self.work, self.at);
        Some(())
    }

    // A text that stands before piece n of a sequence: nothing before the first, which is piece 0.
    pub fn put_between(&mut self, n: usize, text: &[u8]) -> Option<()>
        requires { Fits self.old }
        ensures same_reference { self.new.work.ghost_name ≡ self.old.work.ghost_name }
        ensures ran { Ran (between n text.now) self.old self.new result }
    {
        if n == 0 {
            return Some(());
        }
        self.put_bytes(text)
    }

    // A part of a source as it is.
    pub fn put_part(&mut self, source: Source, a: usize, e: usize) -> Option<()>
        requires able { Reads self.old source }
        requires part_within { (a ≤ e) × (source.start + e ≤ source.end) }
        ensures same_reference { self.new.work.ghost_name ≡ self.old.work.ghost_name }
        ensures ran { Ran (part a e (text_of self.old source)) self.old self.new result }
    {
        if self.limit - self.at < e - a {
            return None;
        }
        let from = source.start + a;
        let to = source.start + e;
        self.at = if source.work {
            buffer::copy_down(self.work, from, to, self.at)
        } else {
            buffer::copy(&self.contents[from..to], self.work, self.at)
        };
        Some(())
    }

    // A heading's hashes and the space behind them; nothing where there is no level.
    pub fn put_level(&mut self, level: Option<usize>) -> Option<()>
        requires fits { Fits self.old }
        requires level { LevelIn level }
        ensures same_reference { self.new.work.ghost_name ≡ self.old.work.ghost_name }
        ensures ran { Ran (level_text level) self.old self.new result }
    {
        let Some(level) = level else {
            return Some(());
        };
        if self.limit - self.at < level + 1 {
            return None;
        }
        self.at = level::put_heading(self.work, self.at, level, b"");
        Some(())
    }
}
