// How far the heads are filled, from row to row: for spherical caps a walk up the levels of a dome. The volume of the other kinds is a formula, and
// for them there is nothing to walk.
ghost use Rattle.std.specs.Prelude.{◌≡◌, ◌≤◌};
ghost use Rattle.measure.specs.Quantity.{diameter_units};
ghost use Rattle.correction.specs.ShellHeight.{shell_units};
ghost use Rattle.heads.specs.Walk.{heads_walk_at};
ghost use Rattle.heads.specs.WalkLaws.{HeadsNotPast};

use crate::heads::Heads;
use crate::kind::HeadKind;
use correction::shell_height::ShellHeight;
use dome_walk::walk::DomeWalk;

impl Heads {
    // On to a height that the walk has not passed.
    pub fn on_to(self, from: DomeWalk, h: ShellHeight) -> DomeWalk
        requires inside { shell_units h ≤ diameter_units self.d }
        requires not_past { HeadsNotPast self.kind (diameter_units self.d) self.l (shell_units h) from }
        ensures { result ≡ heads_walk_at self.kind (diameter_units self.d) self.l (shell_units h) }
    {
        match self.kind {
            HeadKind::Flat | HeadKind::HalfEllipsoid => from,
            HeadKind::SphericalCap => from.on_to(self.dome(), h.shell_units()),
        }
    }
}
