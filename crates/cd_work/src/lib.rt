// The work area of a ranking: four parts of one word a slot, one behind the other. A slot is a letter of the text. The parts are the slots'
// ranges, in whose place come the layers' numbers; the lowered letters; what the letters of the layer that is read lack; and these letters,
// ranked. Where each part starts is known here alone.
#![tactic(auto)]

ghost use Rattle.std.specs.Prelude.{◌≡◌, ◌≤◌};
ghost use Rattle.base.specs.Inner.Limits.{LONGEST_LAYER};
ghost use Rattle.cd_work.specs.Inner.Layout.{letters_start, lacks_start, order_start};

// Where the lowered letters start. The ranges, or the layers' numbers, stand at the front.
pub fn letters_start(slots: usize) -> usize
    ensures { result ≡ letters_start slots }
{
    slots
}

// Where that which the letters lack starts.
pub fn lacks_start(slots: usize) -> usize
    requires { slots ≤ LONGEST_LAYER }
    ensures { result ≡ lacks_start slots }
{
    2 * slots
}

// Where the ranked letters start.
pub fn order_start(slots: usize) -> usize
    requires { slots ≤ LONGEST_LAYER }
    ensures { result ≡ order_start slots }
{
    3 * slots
}
