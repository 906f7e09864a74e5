//! Laws of answers: what is right to answer is one. The functions do nothing.
ghost use Rattle.lin_report.specs.Uniqueness.{NoTellsOnePrefix, YesExcludesNo};

use lin_order::prefixes_are_linearizable;

/// For an object or the whole a yes and a no exclude each other, and a no tells one prefix, whatever the budgets.
pub fn answers_agree()
    ensures yes { YesExcludesNo }
    ensures no { NoTellsOnePrefix }
{
    prefixes_are_linearizable();
}
