//! The colours of pictures.

/// Colours and letters, also for a dark page.
pub(crate) const STYLE: &str = r#"<style>
.lincheck text{font-family:ui-monospace,SFMono-Regular,Menlo,Consolas,"DejaVu Sans Mono",monospace;font-size:13px;fill:#1f2328;white-space:pre}
.lincheck .head{font-weight:bold}
.lincheck .name,.lincheck .key,.lincheck .note{fill:#59636e}
.lincheck .note{font-size:11px}
.lincheck .number{font-size:10px;fill:#fff}
.lincheck .ground{fill:#fff}
.lincheck .lane{stroke:#d8dee4}
.lincheck .ok rect{fill:#8fb4ea}
.lincheck .failing.ok rect{fill:#e5534b}
.lincheck .plain{fill:#e7eaee}
.lincheck .lines{stroke:#8c959f}
.lincheck .red-plain{fill:#f6b3ae}
.lincheck .red-lines{stroke:#d1312a}
.lincheck .full,.lincheck .gone{stop-color:#8fb4ea}
.lincheck .info{stroke:#8a4b00}
.lincheck .cross{stroke:#86120d}
.lincheck .named{stroke:#8a6d00}
.lincheck circle{fill:#24426e}
@media (prefers-color-scheme:dark){
.lincheck text{fill:#e6edf3}
.lincheck .name,.lincheck .key,.lincheck .note{fill:#9198a1}
.lincheck .number{fill:#0f1b2d}
.lincheck .ground{fill:#14171c}
.lincheck .lane{stroke:#333a43}
.lincheck .ok rect{fill:#3c69b0}
.lincheck .failing.ok rect{fill:#cf3d35}
.lincheck .plain{fill:#2b3138}
.lincheck .lines{stroke:#7d8590}
.lincheck .red-plain{fill:#5c1f1c}
.lincheck .red-lines{stroke:#f0655c}
.lincheck .full,.lincheck .gone{stop-color:#3c69b0}
.lincheck .info{stroke:#e3a04f}
.lincheck .cross{stroke:#ffc1bc}
.lincheck .named{stroke:#f2cc60}
.lincheck circle{fill:#d6e4fb}
}
</style>
"#;

/// What the hatched bars are filled with, and the fading ones of the legend: the same in all pictures.
pub(crate) const PATTERNS: &str =
    r##"<pattern id="lincheck-hatch" width="6" height="6" patternUnits="userSpaceOnUse"><rect class="plain" width="6" height="6" fill="#e7eaee"/><path class="lines" d="M-1 1L1 -1M0 6L6 0M5 7L7 5" stroke="#8c959f" stroke-width="1.5"/></pattern>
<pattern id="lincheck-red" width="6" height="6" patternUnits="userSpaceOnUse"><rect class="red-plain" width="6" height="6" fill="#f6b3ae"/><path class="red-lines" d="M-1 1L1 -1M0 6L6 0M5 7L7 5" stroke="#d1312a" stroke-width="1.5"/></pattern>
<linearGradient id="lincheck-short"><stop class="full" offset="0.2" stop-color="#8fb4ea"/><stop class="gone" offset="1" stop-color="#8fb4ea" stop-opacity="0"/></linearGradient>
"##;
