//! A script that is being read: what the lines so far have made, and where the next one may stand.
ghost use Rattle.std.specs.Prelude.{◌≡◌};
ghost use Rattle.device_script.specs.Draft.{asks_rollback, is_of_blocks};
ghost use Rattle.device_script.specs.Words.{words_of};

mod blocks;
mod boots;

use crate::block::Block;
use crate::fault::{LineError, LineFault, ScriptWhy};
use crate::keyword::Keyword;
use crate::labels::Labels;
use crate::line::{
    bare_words, boot_words, file_words, id_words, label_words, part_words, path_words, print_words,
    scale_words, submit_words, success_words, text_said,
};
use crate::words::cut_word;
use apex_base::{Listed, Scale, Shared};
use apex_world::{BootList, Image, Script, ScriptBoot, SegmentForm};
use std::alloc::Global;

/// What the lines so far have made: the scale, the last image, the boots that are done, the boot that calls
/// join, the labels, and the module block that is open.
#[derive(Drop)]
pub struct Draft {
    scale: Option<Scale>,
    image: Option<Shared<Image>>,
    boots: BootList,
    current: Option<ScriptBoot>,
    labels: Labels,
    block: Option<Block>,
}

impl Draft {
    ghost use Rattle.std.specs.Prelude.{◌≡◌};
    ghost use Rattle.device_script.specs.Draft.{start, is_not_yet, may_stand_outside, may_stand, pre_read, submit_read};
    ghost use Rattle.device_script.specs.Draft.{file_read, text_read, taken, finished};
    ghost use Rattle.device_script.specs.Script.{ReadsAs};
    ghost use Rattle.apex_base.specs.Answers.{Becomes};

    /// Before the first line.
    pub fn start(alloc: Global) -> Self
        ensures { result ≡ start }
    {
        Draft {
            scale: None,
            image: None,
            boots: Listed::new(alloc),
            current: None,
            labels: Labels::new(alloc),
            block: None,
        }
    }

    /// Whether a line isn't read yet, though its keyword may be.
    pub fn is_not_yet(&self, keyword: Keyword, rest: &[u8]) -> bool
        ensures { result ≡ is_not_yet self.now keyword rest.now }
    {
        match keyword {
            Keyword::Later => true,
            Keyword::Image => self.image.is_some(),
            Keyword::Submit => asks_rollback(rest),
            _ => false,
        }
    }

    fn may_stand_outside(&self, keyword: Keyword) -> bool
        ensures { result ≡ may_stand_outside self.now keyword }
    {
        match keyword {
            Keyword::Scale => self.scale.is_none(),
            Keyword::Image | Keyword::Module | Keyword::Later => self.scale.is_some(),
            Keyword::Pre | Keyword::Boot => self.image.is_some(),
            Keyword::Submit | Keyword::Ready | Keyword::Abort | Keyword::Success | Keyword::State =>
                self.current.is_some(),
            _ => false,
        }
    }

    /// Whether a line may stand after the lines so far.
    pub fn may_stand(&self, keyword: Keyword) -> bool
        ensures { result ≡ may_stand self.now keyword }
    {
        if self.block.is_some() {
            is_of_blocks(keyword)
        } else {
            self.may_stand_outside(keyword)
        }
    }

    #[inline(never)]
    fn read_pre(&mut self, alloc: Global, rest: &[u8]) -> Result<(), LineError>
        ensures { Becomes result self.new (pre_read self.old rest.now) }
    {
        let part = part_words(rest)?;
        self.take_pre(alloc, &part)
    }

    #[inline(never)]
    fn read_submit(&mut self, alloc: Global, rest: &[u8]) -> Result<(), LineError>
        ensures { Becomes result self.new (submit_read self.old rest.now) }
    {
        let (id, part) = submit_words(rest)?;
        self.take_submit(alloc, id, &part)
    }

    #[inline(never)]
    fn read_file(&mut self, alloc: Global, rest: &[u8]) -> Result<(), LineError>
        ensures { Becomes result self.new (file_read self.old rest.now) }
    {
        let (path, content) = file_words(alloc, rest)?;
        self.take_file(path, content)
    }

    #[inline(never)]
    fn read_text(&mut self, alloc: Global, rest: &[u8]) -> Result<(), LineError>
        ensures { Becomes result self.new (text_read self.old rest.now) }
    {
        let (path, content) = text_said(alloc, rest)?;
        self.take_file(path, content)
    }

    /// Reads the rest of the line with this number, after its first word, and takes it. Lines that hold much are read
    /// in functions of their own, so that a short line doesn't pay for their room.
    #[tactic(auto, unfolding(crate::specs::Draft::taken))]
    pub fn take(
        &mut self,
        alloc: Global,
        number: u32,
        keyword: Keyword,
        rest: &[u8],
    ) -> Result<(), LineError>
        ensures { Becomes result self.new (taken self.old number keyword rest.now) }
    {
        match keyword {
            Keyword::Scale => {
                let scale = scale_words(rest)?;
                self.take_scale(scale)
            }
            Keyword::Image => {
                let print = print_words(rest)?;
                self.take_image(alloc, print)
            }
            Keyword::Pre => self.read_pre(alloc, rest),
            Keyword::Boot => {
                let (time, workers) = boot_words(rest)?;
                self.take_boot(alloc, time, workers)
            }
            Keyword::Submit => self.read_submit(alloc, rest),
            Keyword::Ready => {
                let id = id_words(rest)?;
                self.take_step(SegmentForm::Ready { id })
            }
            Keyword::Abort => {
                let id = id_words(rest)?;
                self.take_step(SegmentForm::Abort { id })
            }
            Keyword::Success => {
                let (time, id) = success_words(rest)?;
                self.take_step(SegmentForm::Success { id, time })
            }
            Keyword::State => {
                let id = id_words(rest)?;
                self.take_step(SegmentForm::StateOf { id })
            }
            Keyword::Module => {
                let label = label_words(rest)?;
                self.block = Some(Block::begin(alloc, number, label));
                Ok(())
            }
            Keyword::File => self.read_file(alloc, rest),
            Keyword::Text => self.read_text(alloc, rest),
            Keyword::Remove => {
                let path = path_words(rest)?;
                self.take_remove(&path)
            }
            Keyword::Seal => {
                bare_words(rest)?;
                self.take_seal(alloc)
            }
            Keyword::Done => {
                bare_words(rest)?;
                self.take_done(alloc)
            }
            Keyword::Later => Err(LineError::Fault(LineFault::NotYet)),
        }
    }

    /// The script that the lines make, if there are no more.
    pub fn finish(mut self) -> Result<Script, ScriptWhy>
        ensures { ReadsAs result (finished self) }
    {
        let Some(scale) = self.scale else {
            return Err(ScriptWhy::Bad {
                line: 1,
                why: LineFault::Unended,
            });
        };
        if let Some(block) = &self.block {
            return Err(ScriptWhy::Bad {
                line: block.line,
                why: LineFault::Unended,
            });
        }
        if self.close().is_err() {
            return Err(ScriptWhy::NoMemory);
        }
        Ok(Script {
            scale,
            boots: self.boots,
        })
    }
}

/// Whether a line of this keyword may stand in module blocks alone.
fn is_of_blocks(keyword: Keyword) -> bool
    ensures { result ≡ is_of_blocks keyword }
{
    matches!(
        keyword,
        Keyword::File | Keyword::Text | Keyword::Remove | Keyword::Seal | Keyword::Done
    )
}

/// Whether the word after the id asks for a rollback.
fn asks_rollback(rest: &[u8]) -> bool
    ensures { result ≡ asks_rollback (words_of rest.now) }
{
    let Some((_, rest)) = cut_word(rest) else {
        return false;
    };
    match cut_word(rest) {
        None => false,
        Some((kind, _)) => kind == b"rollback".as_slice(),
    }
}
