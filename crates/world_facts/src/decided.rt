//! The laws of lawful worlds: the test decides them, and the first world is one.
ghost use Rattle.std.specs.Prelude.{◌≡◌, true};
ghost use Rattle.apex_base.specs.declared.numbers.Scale.{Scale};
ghost use Rattle.apex_world.specs.Decided.{is_lawful};
ghost use Rattle.apex_world.specs.Lawful.{Lawful};
ghost use Rattle.apex_world.specs.World.{World, empty_world};

/// A world is lawful if and only if it passes the test of lawful worlds.
pub fn lawful_worlds_are_decided()
    ensures passes { (w : World) → Lawful w → is_lawful w ≡ true }
    ensures holds { (w : World) → is_lawful w ≡ true → Lawful w }
{}

/// The world before the first boot is lawful.
pub fn empty_world_is_lawful()
    ensures { (scale : Scale) → Lawful (empty_world scale) }
{}
