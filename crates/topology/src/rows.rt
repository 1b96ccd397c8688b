ghost use Rattle.std.specs.List.{AllZip};

use super::side::Side;

// Changes each row as a function says.
pub(crate) fn change_each<F: Fn(Side) -> Side>(rows: &mut [Side], change: F)
    requires { F.IsAlwaysCallable change }
    ensures { AllZip (F.post change) rows.old rows.new }
{
    for row in rows.iter_mut() {
        *row = change(*row);
    }
}
