//! What lines outside blocks make of a draft: its image, its boots and their calls.
use super::Draft;
use crate::fault::{LineError, LineFault};
use crate::image::{image_with, with_manifest};
use crate::words::PartWord;
use apex_base::{Listed, Millis, Print, Scale, SessionId, Shared};
use apex_world::{
    BootOrder, Image, ScriptBoot, SegmentForm, SegmentList, SharedModule, SingleSubmit,
};
use std::alloc::{AllocError, Global};

impl Draft {
    ghost use Rattle.std.specs.Prelude.{◌≡◌, OnOk};
    ghost use Rattle.device_script.specs.Draft.{closed, scale_taken, image_taken, pre_taken, boot_taken, segment_taken};
    ghost use Rattle.device_script.specs.Draft.{submit_taken};
    ghost use Rattle.apex_world.specs.Segments.{segment_of};
    ghost use Rattle.device_script.specs.Images.{module_named};
    ghost use Rattle.apex_base.specs.Answers.{Answers, Becomes};

    /// The module that the word with that number names.
    fn module_named(
        &self,
        alloc: Global,
        word: u32,
        part: &PartWord,
    ) -> Result<SharedModule, LineError>
        ensures { Answers result (module_named self.now.labels word part.now) }
    {
        match part {
            PartWord::Short { name, version } => Ok(SharedModule::short(*name, *version)),
            PartWord::Label(name) => {
                let module = self.labels.get(name).ok_or(LineFault::NoLabel { word })?;
                Ok(module.share()?)
            }
        }
    }

    /// The script's scale. There may be only one.
    pub(super) fn take_scale(&mut self, scale: Scale) -> Result<(), LineError>
        ensures { Becomes result self.new (scale_taken self.old scale self.old.scale) }
    {
        if self.scale.is_some() {
            return Err(LineError::Fault(LineFault::BadPlace));
        }
        self.scale = Some(scale);
        Ok(())
    }

    /// A new image without modules.
    pub(super) fn take_image(&mut self, alloc: Global, print: Print) -> Result<(), LineError>
        ensures { Becomes result self.new (image_taken self.old print) }
    {
        let modules = Listed::new(alloc);
        self.image = Some(Shared::new(alloc, Image { print, modules })?);
        Ok(())
    }

    /// The image has one more module.
    #[tactic(auto, unfolding(crate::specs::Draft::pre_taken))]
    pub(super) fn take_pre(&mut self, alloc: Global, part: &PartWord) -> Result<(), LineError>
        ensures { Becomes result self.new (pre_taken self.old part.now self.old.scale self.old.image) }
    {
        let scale = self.scale.ok_or(LineFault::BadPlace)?;
        let image = self.image.take().ok_or(LineFault::BadPlace)?;
        let module = self.module_named(alloc, 2, part)?;
        let module = with_manifest(alloc, module)?;
        self.image = Some(image_with(alloc, scale, image, module)?);
        Ok(())
    }

    /// The current boot joins the boots that are done.
    pub(super) fn close(&mut self) -> Result<(), AllocError>
        ensures closed { OnOk result (self.new.boots ≡ closed self.old) }
        ensures rest { OnOk result (self.new ≡ record self.old { boots = self.new.boots; current = self.new.current }) }
    {
        if let Some(boot) = self.current.take() {
            self.boots.push(boot)?;
        }
        Ok(())
    }

    /// A boot of the last image.
    pub(super) fn take_boot(
        &mut self,
        alloc: Global,
        time: Millis,
        workers: u32,
    ) -> Result<(), LineError>
        ensures { Becomes result self.new (boot_taken self.old time workers self.old.scale self.old.image) }
    {
        let scale = self.scale.ok_or(LineFault::BadPlace)?;
        let image = self.image.as_ref().ok_or(LineFault::BadPlace)?.share()?;
        self.close()?;
        let observers = Listed::new(alloc);
        self.current = Some(ScriptBoot {
            order: BootOrder {
                scale,
                image,
                observers,
                time,
            },
            mounts: Listed::new(alloc),
            workers,
            cut: None,
            segments: SegmentList::new(alloc),
        });
        Ok(())
    }

    /// A segment after the last boot.
    pub(super) fn take_step(&mut self, form: SegmentForm) -> Result<(), LineError>
        ensures { Becomes result self.new (segment_taken self.old (segment_of form) self.old.current) }
    {
        match &mut self.current {
            None => Err(LineError::Fault(LineFault::BadPlace)),
            Some(boot) => Ok(boot.segments.push(form)?),
        }
    }

    /// A plain submit of one part after the last boot.
    #[tactic(auto, unfolding(crate::specs::Draft::submit_taken))]
    pub(super) fn take_submit(
        &mut self,
        alloc: Global,
        id: SessionId,
        part: &PartWord,
    ) -> Result<(), LineError>
        ensures { Becomes result self.new (submit_taken self.old id part.now) }
    {
        let part = self.module_named(alloc, 4, part)?;
        let rollback = false;
        let submit = Box::new(alloc, SingleSubmit { id, rollback, part })?;
        self.take_step(SegmentForm::Submit(submit))
    }
}
