//! What the marks of a picture mean.
use std::alloc::AllocError;

/// The bars of all pictures.
const BARS: &str =
    r##"<g class="key ok"><rect x="20" y="51" width="28" height="12" rx="3" fill="#8fb4ea"/><text class="key" x="55" y="61">ok</text></g>
<g class="key"><rect x="91" y="51" width="28" height="12" rx="3" fill="url(#lincheck-hatch)"/><text class="key" x="126" y="61">failed</text></g>
<g class="key"><rect x="194" y="51" width="28" height="12" rx="3" fill="url(#lincheck-short)"/><text class="key" x="229" y="61">open</text></g>
<g class="key"><rect x="281" y="51" width="28" height="12" rx="3" fill="url(#lincheck-short)"/><path class="info" d="M293 47v20" stroke="#8a4b00" stroke-width="2" stroke-dasharray="4 3"/><text class="key" x="316" y="61">crashed</text></g>
"##;

/// The bar of the failing operation.
const FAILING: &str =
    r##"<g class="key ok failing"><rect x="392" y="51" width="28" height="12" rx="3" fill="#e5534b"/><path class="cross" d="M415 52l10 10m0 -10l-10 10" stroke="#86120d" stroke-width="3" fill="none"/><text class="key" x="432" y="61">fails</text></g>
"##;

/// The outline of a bar that is named, where an operation fails and where none does.
const NAMED: &str =
    r##"<g class="key ok"><rect x="756" y="51" width="28" height="12" rx="3" fill="#8fb4ea" stroke="#8a6d00" stroke-width="2" class="named"/><text class="key" x="791" y="61">named</text></g>
"##;

const OPEN: &str =
    r##"<g class="key"><rect x="392" y="51" width="28" height="12" rx="3" fill="url(#lincheck-short)" stroke="#8a6d00" stroke-width="2" class="named"/><text class="key" x="427" y="61">open where there are too many</text></g>
"##;

/// The dots beside a failing operation.
const BEFORE: &str =
    r##"<g class="key"><circle cx="500" cy="57" r="8" fill="#24426e"/><text class="number" x="500" y="61" font-size="10" text-anchor="middle" fill="#fff">1</text><text class="key" x="515" y="61">a legal order without its end</text></g>
"##;

/// The dots where none fails.
const ORDER: &str =
    r##"<g class="key"><circle cx="400" cy="57" r="8" fill="#24426e"/><text class="number" x="400" y="61" font-size="10" text-anchor="middle" fill="#fff">1</text><text class="key" x="415" y="61">a legal order</text></g>
"##;

/// What the dots mean, if there are any.
fn dots_words(is_failure: bool, has_dots: bool) -> &'static str {
    match (is_failure, has_dots) {
        (_, false) => "",
        (true, true) => BEFORE,
        (false, true) => ORDER,
    }
}

/// What an outline means, if a bar has one.
fn outline_words(is_failure: bool, has_named: bool) -> &'static str {
    match (is_failure, has_named) {
        (_, false) => "",
        (true, true) => NAMED,
        (false, true) => OPEN,
    }
}

/// Puts the legend last.
pub(crate) fn put_legend(
    text: &mut Vec<u8>,
    is_failure: bool,
    has_dots: bool,
    has_named: bool,
) -> Result<(), AllocError> {
    text.extend_from_slice(BARS.as_bytes())?;
    if is_failure {
        text.extend_from_slice(FAILING.as_bytes())?;
    }
    text.extend_from_slice(outline_words(is_failure, has_named).as_bytes())?;
    text.extend_from_slice(dots_words(is_failure, has_dots).as_bytes())
}
