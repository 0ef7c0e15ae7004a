//! How the picture looks: shapes and hatching beside colours, in light, in dark and on paper.

/// The rules of the picture.
pub const STYLE: &str = "
svg { color-scheme: light dark; --paper: #ffffff; --ink: #1b1f24; --soft: #5d6670; --line: #d6dbe0; --band: #f3f5f7; --pending: #f6b99a; --pending-ink: #a33b00; --flushed: #fbe6a2; --flushed-ink: #8a6500; --safe: #b9dcf2; --safe-ink: #00588f; --crash: #b00020; font-family: 'DejaVu Sans Mono', 'Liberation Mono', Menlo, Consolas, monospace, 'Noto Sans Mono CJK SC', 'Noto Sans CJK SC', 'Noto Sans', sans-serif; font-size: 11px; }
@media (prefers-color-scheme: dark) { svg { --paper: #14181d; --ink: #e8ecf0; --soft: #9da7b2; --line: #38414b; --band: #1c2229; --pending: #6b3018; --pending-ink: #ffb08a; --flushed: #5a4a10; --flushed-ink: #ffe08a; --safe: #0f4668; --safe-ink: #9fd6ff; --crash: #ff6b7d; } }
@page { size: landscape; margin: 10mm; }
@media print { svg { width: 100%; height: auto; max-height: 100vh; --paper: #ffffff; --ink: #000000; --soft: #444444; --line: #bbbbbb; --band: #ffffff; --pending: #f6b99a; --pending-ink: #a33b00; --flushed: #fbe6a2; --flushed-ink: #8a6500; --safe: #b9dcf2; --safe-ink: #00588f; --crash: #b00020; } * { print-color-adjust: exact; -webkit-print-color-adjust: exact; } }
text { fill: var(--ink); }
.paper { fill: var(--paper); }
.headline { font-size: 15px; font-weight: bold; }
.told { font-size: 13px; }
.soft { fill: var(--soft); }
.end { text-anchor: end; }
.mid { text-anchor: middle; }
.strong { font-weight: bold; }
.band { fill: var(--band); }
.rule { stroke: var(--line); stroke-width: 1; }
.cut { stroke: var(--soft); stroke-width: 1; stroke-dasharray: 1 4; }
.pending { fill: url(#hatch-pending); stroke: var(--pending-ink); }
.flushed { fill: url(#hatch-flushed); stroke: var(--flushed-ink); }
.safe { fill: var(--safe); stroke: var(--safe-ink); }
.back-pending { fill: var(--pending); }
.back-flushed { fill: var(--flushed); }
.hatch-pending { stroke: var(--pending-ink); stroke-width: 1.2; stroke-opacity: 0.6; }
.hatch-flushed { fill: var(--flushed-ink); fill-opacity: 0.7; }
.halo { paint-order: stroke; stroke: var(--paper); stroke-width: 5px; stroke-linejoin: round; }
.dot { fill: var(--ink); }
.mark { fill: var(--ink); stroke: var(--ink); stroke-width: 1.6; stroke-linejoin: round; }
.dropped { fill: var(--paper); stroke-dasharray: none; }
.mend { fill: var(--paper); stroke: var(--safe-ink); stroke-width: 1.6; stroke-dasharray: 3 2; }
.mend-word { fill: var(--safe-ink); font-weight: bold; }
.mend-detail { fill: var(--safe-ink); font-weight: normal; }
.after { fill: var(--paper); fill-opacity: 0.6; }
.wait { stroke: var(--ink); stroke-width: 1.2; fill: none; }
.never { stroke-dasharray: 3 3; }
.pass { fill: var(--paper); stroke: var(--safe-ink); stroke-width: 2; }
.tick { fill: none; stroke: var(--safe-ink); stroke-width: 2; }
.fail { fill: var(--crash); stroke: var(--crash); stroke-width: 2; }
.cross { fill: none; stroke: var(--paper); stroke-width: 2; }
.crash { stroke: var(--crash); stroke-width: 2.2; stroke-dasharray: 7 3; }
.crash-word { fill: var(--crash); font-weight: bold; }
.unfenced { fill: var(--crash); stroke: var(--crash); stroke-width: 1.6; stroke-linejoin: round; }
.shout { fill: none; stroke: var(--paper); stroke-width: 2; }
.stored { fill: none; stroke: var(--ink); stroke-width: 1; }
.lost-store { fill: none; stroke: var(--crash); stroke-width: 2; }
.asserted { fill: var(--crash); }
.asserted-side { fill: var(--crash); }
.lost { fill: none; stroke: var(--crash); stroke-width: 2.4; }
.kept { fill: none; stroke: var(--safe-ink); stroke-width: 2.4; }
.tag-lost { fill: var(--crash); }
.tag-kept { fill: var(--safe-ink); }
.tag-word { fill: var(--paper); font-weight: bold; }
.small { font-size: 9px; }
.tiny { font-size: 10px; }
";

/// The hatchings.
pub const PATTERNS: &str =
    "<defs><pattern id='hatch-pending' width='7' height='7' patternUnits='userSpaceOnUse' patternTransform='rotate(45)'><rect class='back-pending' width='7' height='7'/><line class='hatch-pending' x1='0' y1='0' x2='0' y2='7'/></pattern><pattern id='hatch-flushed' width='6' height='6' patternUnits='userSpaceOnUse'><rect class='back-flushed' width='6' height='6'/><circle class='hatch-flushed' cx='2' cy='2' r='0.9'/><circle class='hatch-flushed' cx='5' cy='5' r='0.9'/></pattern></defs>";
