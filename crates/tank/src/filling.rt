// How far a tank is filled: a walk up the shell's circle, one up the flanges' and one up the heads. Each goes on from row to row, so that
// one walk up each serves the whole table.
ghost use Rattle.std.specs.Prelude.{◌≡◌, ℕ};
ghost use Rattle.measure.specs.Quantity.{dip_units, volume};
ghost use Rattle.tank.specs.declared.tank.Tank.{Tank};
ghost use Rattle.tank.specs.Tank.{gross_at};
ghost use Rattle.tank.specs.TankLaws.{TankLimits};
ghost use Rattle.tank.specs.FillingLaws.{NotPast, filling_at};

use crate::cylinder::cylinder_volume;
use crate::tank::Tank;
use circle::walk::Walk;
use correction::shell_height::ShellHeight;
use dome_walk::walk::DomeWalk;
use measure::dip_height::DipHeight;
use measure::volume::Volume;

#[derive(Clone, Copy)]
pub struct Filling {
    pub shell: Walk,
    pub flanges: Walk,
    pub heads: DomeWalk,
}

impl Filling {
    // Nothing is filled yet.
    pub fn empty() -> Filling
        ensures { (t : Tank) → TankLimits t → (h : ℕ) → NotPast t h result }
    {
        Filling {
            shell: Walk::start(),
            flanges: Walk::start(),
            heads: DomeWalk::start(),
        }
    }

    // On to a dip height that the filling has not passed.
    pub fn on_to(self, t: Tank, h: DipHeight) -> Filling
        requires { NotPast t (dip_units h) self }
        ensures { result ≡ filling_at t (dip_units h) }
    {
        let in_shell = ShellHeight::corrected(t.d1, t.dh, h);
        let in_heads = ShellHeight::corrected(t.d2, t.dh, h);
        Filling {
            shell: self.shell.on_to(t.d1, in_shell),
            flanges: self.flanges.on_to(t.d2, in_heads),
            heads: t.heads().on_to(self.heads, in_heads),
        }
    }

    // The gross volume of a tank that is filled to a dip height.
    pub fn gross(self, t: Tank, h: DipHeight) -> Volume
        requires { self ≡ filling_at t (dip_units h) }
        ensures { result ≡ volume (gross_at t (dip_units h)) }
    {
        let in_heads = ShellHeight::corrected(t.d2, t.dh, h);
        let of_shell = cylinder_volume(self.shell.area(), t.l1 as u64);
        let of_flanges = cylinder_volume(self.flanges.area(), 2 * (t.l2 as u64));
        let of_heads = t.heads().volume(self.heads, in_heads);
        of_shell + of_flanges + of_heads
    }
}
