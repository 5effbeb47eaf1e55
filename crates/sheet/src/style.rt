// How the page looks, on a screen and on paper of A4. Lines of a chart are told apart by dashes and marks, so that colour is not needed.
use text::{ANSWER, put};

pub fn put_style(out: &mut [u8; ANSWER], at: usize) -> usize {
    put(
        out,
        at,
        b"<style>\n\
@page{size:A4 portrait;margin:14mm 14mm 15mm}\n\
*{box-sizing:border-box}\n\
html{background:#fff;color:#000}\n\
body{margin:0 auto;max-width:182mm;font:9.5pt/1.35 Helvetica,Arial,\"Liberation Sans\",sans-serif}\n\
@media screen{body{max-width:190mm;padding:8mm 4mm 16mm}}\n\
h1{font-size:17pt;margin:0 0 2mm;overflow-wrap:anywhere}\n\
h2{font-size:12pt;margin:7mm 0 2mm;border-bottom:.4mm solid #000;break-after:avoid}\n\
h3{font-size:10.5pt;margin:0 0 .6mm;break-after:avoid}\n\
p{margin:0 0 2mm}\n\
table{border-collapse:collapse;margin:0 0 2.5mm;font-size:8.5pt;font-variant-numeric:tabular-nums}\n\
table.wide{width:100%;table-layout:fixed}\n\
thead{display:table-header-group}\n\
tr{break-inside:avoid}\n\
th,td{padding:.55mm 1.2mm;text-align:right;vertical-align:top;overflow-wrap:anywhere;border-bottom:.15mm solid #999}\n\
th{font-weight:normal}\n\
tr>:first-child{text-align:left}\n\
thead th{font-size:7.5pt;vertical-align:bottom;border-bottom:.3mm solid #000;background:#eee;hyphens:manual}\n\
table.wide tr>:first-child{width:24%}\n\
table.short th{padding-right:5mm}\n\
table.short td{padding-left:3mm;padding-right:3mm}\n\
td.z{color:#777}\n\
table.facts th{text-align:left;padding-right:6mm}\n\
table.facts td{text-align:left;font-weight:bold}\n\
table.tiny{width:100%;table-layout:fixed;font-size:7pt;line-height:1.15}\n\
table.tiny th,table.tiny td{padding:.2mm .4mm}\n\
table.four{width:100%}\n\
table.four td:nth-child(odd){text-align:left;width:19%;padding-left:3mm;border-left:.15mm solid #999}\n\
table.four td:first-child{padding-left:1.2mm;border-left:0}\n\
table.four td:nth-child(even){width:6%;padding-right:3mm}\n\
tr.total td,tr.total th,tr.price td,tr.price th{font-weight:bold}\n\
tr.price+tr:not(.price) td,tr.price+tr:not(.price) th,tr:not(.total)+tr.total td,tr:not(.total)+tr.total th{border-top:.3mm solid #000}\n\
.sum{font-size:8.5pt;margin-bottom:1mm}\n\
.moves{orphans:2;font-size:8.5pt;margin:0 0 .6mm 4mm;text-indent:-4mm;padding-left:4mm;break-inside:avoid}\n\
.moves span+span::before{content:\"; \";margin-left:-.7ex}\n\
.list span+span::before{content:\", \";margin-left:-.7ex}\n\
.moves i{font-style:normal}\n\
#awards,.round table{break-inside:avoid}\n\
.round{margin:0 0 4.5mm}\n\
.round .sum,.lead{break-after:avoid}\n\
.sums{font:8pt/1.3 \"Liberation Mono\",Menlo,Consolas,monospace;overflow-wrap:anywhere}\n\
svg{display:block;width:100%;height:auto;overflow:visible;break-inside:avoid;margin:0 0 2mm}\n\
.pair{display:flex;flex-wrap:wrap;justify-content:space-between}\n\
.pair svg{width:48.5%;margin:0 0 3mm}\n\
svg text{font:26px Helvetica,Arial,\"Liberation Sans\",sans-serif;fill:#000}\n\
svg .r{text-anchor:end}\n\
svg .c{text-anchor:middle}\n\
svg .h{font-weight:bold;font-size:29px}\n\
.g{stroke:#ccc;stroke-width:1.5;fill:none}\n\
.a{stroke:#000;stroke-width:2.5;fill:none}\n\
.l{stroke:#666;stroke-width:1.5;fill:none}\n\
.b{fill:#9aa7b1}\n\
.t{stroke:#000;stroke-width:4;stroke-dasharray:16 9;fill:none}\n\
polyline{fill:none;stroke-width:4;stroke-linejoin:round}\n\
.s0{stroke:#000;fill:#000}\n\
.s1{stroke:#0b5fa5;fill:#0b5fa5}.s1 polyline{stroke-dasharray:22 8}\n\
.s2{stroke:#b3410e;fill:#b3410e}.s2 polyline{stroke-dasharray:5 7}\n\
.s3{stroke:#2b7a3d;fill:#2b7a3d}.s3 polyline{stroke-dasharray:22 7 5 7}\n\
.s4{stroke:#7a3b9a;fill:#fff}.s4 polyline{stroke-width:2.5}\n\
.s5{stroke:#7d5f00;fill:#fff}.s5 polyline{stroke-dasharray:12 5;stroke-width:2.5}\n\
.s6{stroke:#0e6f78;fill:#fff}.s6 polyline{stroke-dasharray:3 5;stroke-width:3}\n\
.s7{stroke:#a01f5b;fill:#fff}.s7 polyline{stroke-dasharray:30 6 4 6 4 6;stroke-width:2.5}\n\
.s0 path,.s1 path,.s2 path,.s3 path,.s4 path,.s5 path,.s6 path,.s7 path{stroke-width:3}\n\
</style>\n",
    )
}
