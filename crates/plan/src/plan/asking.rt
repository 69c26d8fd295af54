ghost use Rattle.std.specs.Prelude.{◌≡◌, ◌≤◌, length, IfSome, Some};
ghost use Rattle.std.specs.List.{slice_get};
ghost use Rattle.plan.specs.Lawful.{width as width_by, OneToEight};
ghost use Rattle.plan.specs.Plans.{nodes_of, widths_of};
ghost use Rattle.plan.specs.Sound.{Sound, Handed};

use crate::node::Node;
use crate::plan::Plan;

impl Plan {
    // How many nodes the plan has.
    pub fn len(&self) -> usize
        ensures answer { result ≡ length (nodes_of self.now) }
        ensures bound { (1 ≤ result) × (result ≤ 16) }
    {
        self.len
    }

    // How many columns the measure shows for which the plan was checked.
    pub fn shown_columns(&self) -> u8
        ensures answer { result ≡ self.now.shown }
        ensures bound { result ≤ 8 }
    {
        self.shown
    }

    // The node with this number. What it names is lower, lies below its width and needs no test; its rows are 1 to 8 wide.
    pub fn node(&self, i: usize) -> Option<Node>
        ensures answer { result ≡ slice_get (nodes_of self.now) i }
        ensures sound { IfSome result (λ x. Sound self.now.shown (widths_of self.now) i x) }
        ensures wide { IfSome result (λ x. slice_get (widths_of self.now) i ≡ Some (width_by self.now.shown (widths_of self.now) x)) }
        ensures bound { IfSome result (λ x. OneToEight (width_by self.now.shown (widths_of self.now) x)) }
        ensures handed { IfSome result (λ x. Handed self.now.shown (widths_of self.now) i x) }
    {
        self.nodes[..self.len].get(i).copied()
    }

    // How many columns the rows of the node with this number have.
    pub fn width(&self, i: usize) -> Option<u8>
        ensures answer { result ≡ slice_get (widths_of self.now) i }
        ensures bound { IfSome result (λ w. w ≤ 8) }
        ensures one_to_eight { IfSome result OneToEight }
    {
        self.widths[..self.len].get(i).copied()
    }
}
