//! The operations that lines name.
ghost use Rattle.std.specs.Prelude.{◌≡◌, ◌++◌, Contains, OnOk, option_to_list};
ghost use Rattle.std.specs.List.{flat_map};
ghost use Rattle.lin_certificate_lines.specs.Groups.{IsListing};
ghost use Rattle.lin_certificate_lines.specs.Reasons.{all_four, both_of};

use std::alloc::AllocError;

/// These operations rising, each once.
pub(crate) fn in_order(mut named: Vec<usize>) -> Vec<usize>
    ensures { IsListing (Contains named.items) result.items }
{
    named.sort_unstable();
    named.dedup();
    named
}

/// Puts the operation last, if there is one.
pub(crate) fn name_some(named: &mut Vec<usize>, at: Option<usize>) -> Result<(), AllocError>
    ensures { OnOk result (named.new.items ≡ named.old.items ++ option_to_list at) }
{
    if let Some(at) = at {
        named.push(at)?;
    }
    Ok(())
}

/// Puts both operations of the pair last.
pub(crate) fn name_pair(named: &mut Vec<usize>, pair: (usize, usize)) -> Result<(), AllocError>
    ensures { OnOk result (named.new.items ≡ named.old.items ++ both_of pair) }
{
    named.push(pair.0)?;
    named.push(pair.1)?;
    Ok(())
}

/// Puts the operations of each pair last.
pub(crate) fn name_pairs(named: &mut Vec<usize>, pairs: &[(usize, usize)]) -> Result<(), AllocError>
    ensures { OnOk result (named.new.items ≡ named.old.items ++ flat_map both_of pairs.now) }
{
    for pair in pairs {
        name_pair(named, *pair)?;
    }
    Ok(())
}

/// Puts the operations of both pairs last, the second one's first, if there is a second.
pub(crate) fn name_four(
    named: &mut Vec<usize>,
    pair: (usize, usize),
    back: Option<(usize, usize)>,
) -> Result<(), AllocError>
    ensures { OnOk result (named.new.items ≡ named.old.items ++ all_four pair back) }
{
    if let Some(back) = back {
        name_pair(named, back)?;
    }
    name_pair(named, pair)
}
