//! How a picture looks, on a light and on a dark background. Inside a panel lengths are in tenths.

/// The style sheet.
pub const STYLE: &str = "<style>
text{font-family:'Helvetica Neue',Helvetica,Arial,'Liberation Sans','DejaVu Sans',sans-serif;font-size:13px;fill:#1f2933}
.title{font-size:20px;font-weight:bold}
.symbol{font-size:15px;font-weight:bold}
.note{fill:#52606d}
.mid{text-anchor:middle}
.end{text-anchor:end}
.page{fill:#fff}
.ground{fill:#f5f7fa}
.grid{fill:none;stroke:#d5dce4;stroke-width:7}
.frame{fill:none;stroke:#9aa5b1;stroke-width:14}
.buy,.sell{fill:none;stroke-width:15;stroke-linejoin:round}
.key{stroke-width:2}
.buy{stroke:#0b69c7}
.sell{stroke:#c2500a}
.direct{fill:#00796b;fill-opacity:.5;stroke:#00796b;stroke-width:5}
.implied{fill:#a61caf;fill-opacity:.55;stroke:#a61caf;stroke-width:5}
.size{stroke-width:.5}
@media (prefers-color-scheme:dark){
text{fill:#e4e7eb}
.note{fill:#a9b4c0}
.page{fill:#12161b}
.ground{fill:#1a2028}
.grid{stroke:#333d49}
.frame{stroke:#616e7c}
.buy{stroke:#62b0ff}
.sell{stroke:#ff9d52}
.direct{fill:#3fd0b6;stroke:#3fd0b6}
.implied{fill:#e685f0;stroke:#e685f0}
}
</style>
";
