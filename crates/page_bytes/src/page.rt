//! The page before and behind a film, in parts: the bytes of viewer/page.html. Made by viewer/embed.

ghost use Rattle.std.specs.Prelude.{◌≡◌, ◌≤◌, Some, IfNone, IfSome, length, slice_get};
ghost use Rattle.page_bytes.specs.Page.{front_0, front_1, back_0, back_1, back_2, back_3, back_4, back_5, back_6, front_parts, back_parts};

const FRONT_0: &[u8] = b"\
    <!DOCTYPE html>\n<html lang=\"en\">\n<head>\n<meta charset=\"utf-8\">\n\
    <meta name=\"viewport\" content=\"width=device-width, initial-scale=1\">\n<meta \
    http-equiv=\"Content-Security-Policy\" content=\"default-src 'none'; style-src 'unsafe-inline'; \
    script-src 'unsafe-inline'\">\n<title>A run of the Data Diffusion Machine</title>\n<style>\n\
    :root {\ncolor-scheme: light dark;\n--bg: #f3f4f7; --panel: #ffffff; --ink: #161d29; --soft: \
    #525d70; --line: #cdd4df; --faint: #e9edf3;\n\
    --blue: #0067ad; --blue-ink: #ffffff; --orange: #e8a200; --orange-ink: #1d1400; --red: #c04a00;\n\
    --red-ink: #ffffff;\n\
    --pink: #b0478a; --pink-ink: #ffffff; --grey: #6d7686; --grey-ink: #ffffff; --green: #00795a;\n\
    --mark: #ffe45c; --mark-ink: #161d29; --focus: #161d29; --shadow: 0 1px 2px rgba(20, 30, 50, .12);\n\
    }\n:root[data-theme=\"dark\"] {\ncolor-scheme: dark;\n--bg: #0f131a; --panel: #181e28; --ink: \
    #e9edf4; --soft: #a3aebf; --line: #364153; --faint: #232b38;\n\
    --blue: #5cb8f0; --blue-ink: #06121c; --orange: #f0ae1c; --orange-ink: #1d1400; --red: #ff8a4a;\n\
    --red-ink: #1f0c00;\n\
    --pink: #e08cc0; --pink-ink: #22091a; --grey: #98a3b5; --grey-ink: #10151d; --green: #37c79b;\n\
    --mark: #f3e04a; --mark-ink: #14181f; --focus: #ffffff; --shadow: 0 1px 2px rgba(0, 0, 0, .5);\n}\n\
    @media (prefers-color-scheme: dark) {\n:root:not([data-theme=\"light\"]) {\ncolor-scheme: dark;\n\
    --bg: #0f131a; --panel: #181e28; --ink: #e9edf4; --soft: #a3aebf; --line: #364153; --faint: \
    #232b38;\n\
    --blue: #5cb8f0; --blue-ink: #06121c; --orange: #f0ae1c; --orange-ink: #1d1400; --red: #ff8a4a;\n\
    --red-ink: #1f0c00;\n\
    --pink: #e08cc0; --pink-ink: #22091a; --grey: #98a3b5; --grey-ink: #10151d; --green: #37c79b;\n\
    --mark: #f3e04a; --mark-ink: #14181f; --focus: #ffffff; --shadow: 0 1px 2px rgba(0, 0, 0, .5);\n}\n\
    }\n* { box-sizing: border-box; }\nhtml { font-size: clamp(14px, 0.42vw + 0.42vh + 5.2px, 22px); }\n\
    body {\nmargin: 0; height: 100vh; overflow: hidden; background: var(--bg); color: var(--ink);\n\
    font-family: system-ui, -apple-system, \"Segoe UI\", Roboto, \"DejaVu Sans\", sans-serif; \
    line-height: 1.35;\ndisplay: grid; grid-template-rows: auto minmax(0, 1fr) auto auto;\n\
    grid-template-columns: minmax(0, 1fr) clamp(20rem, 32.5vw, 46rem);\n\
    grid-template-areas: \"top top\" \"tree side\" \"move side\" \"lanes side\";\n}\n\
    button, select, input, textarea { font: inherit; color: inherit; }\n\
    button, select, input[type=\"text\"], input[type=\"search\"] {\nbackground: var(--panel); border: \
    1px solid var(--line); border-radius: .4rem; padding: .18rem .5rem;\n}\n\
    button { cursor: pointer; }\nbutton:hover { border-color: var(--soft); }\n\
    button[aria-pressed=\"true\"], [role=\"tab\"][aria-selected=\"true\"] {\n\
    background: var(--ink); color: var(--panel); border-color: var(--ink);\n}\n\
    :focus-visible { outline: .17rem solid var(--focus); outline-offset: .1rem; }\ncode, .mono {\n\
    font-family: ui-monospace, \"SF Mono\", Menlo, Consolas, \"DejaVu Sans Mono\", monospace; \
    font-size: .93em;\n}\n.soft { color: var(--soft); }\n.hidden { display: none !important; }\n.sr {\n\
    position: absolute; width: 1px; height: 1px; overflow: hidden; clip-path: inset(50%); white-space: \
    nowrap;\n}\n#top {\ngrid-area: top; display: flex; flex-wrap: wrap; align-items: center; gap: \
    .25rem .6rem; padding: .3rem .8rem;\n\
    background: var(--panel); border-bottom: 1px solid var(--line);\n}\n\
    #top h1 { font-size: 1.1rem; margin: 0; font-weight: 750; }\n#top .fill { flex: 1; }\n\
    #top select { padding: .18rem .1rem; }\n\
    #top label { display: inline-flex; gap: .4rem; align-items: center; color: var(--soft); }\n\
    #top button { padding: .15rem .5rem; }\n\
    #item { width: 15.5rem; max-width: 42vw; color: var(--ink); }\n\
    .group { display: inline-flex; gap: .25rem; align-items: center; }\n\
    #tree { grid-area: tree; position: relative; overflow: auto; min-height: 0; }\n\
    #stage { position: relative; transform-origin: 0 0; }\n\
    #wires, #moves { position: absolute; inset: 0; overflow: visible; pointer-events: none; }\n\
    #moves { z-index: 2; }\n#wires .wire { stroke: var(--line); stroke-width: 2; fill: none; }\n\
    #wires .bar { stroke: var(--soft); stroke-width: 5; stroke-linecap: round; }\n\
    #wires .bar.now { stroke: var(--ink); stroke-width: 8; }\n\
    #wires .bar.busy { stroke: var(--red); stroke-width: 8; stroke-dasharray: 3 10; }\n.buslabel {\n\
    position: absolute; z-index: 1; white-space: nowrap; color: var(--soft); font-size: .74em;\n\
    background: var(--bg); padding: 0 .3em; border-radius: .3em; line-height: 1.3;\n}\n\
    .buslabel b { color: var(--ink); }\n.box {\nposition: absolute; background: var(--panel); border: \
    1.5px solid var(--line); border-radius: .55em;\nbox-shadow: var(--shadow);\npadding: .3em .45em; \
    cursor: pointer; overflow: hidden; text-align: left; line-height: 1.28; display: flex;\n\
    flex-direction: column; gap: .22em;\n}\n\
    .box.now { border-color: var(--ink); box-shadow: 0 0 0 2px var(--ink); }\n\
    .box.chosen { outline: .16em dashed var(--soft); outline-offset: .14em; }\n.box .head {\ndisplay: \
    flex; gap: .45em; align-items: center; white-space: nowrap; font-size: .82em; color: var(--soft);\n\
    min-height: 1.5em;\n}\n.box .head b { color: var(--ink); font-weight: 650; }\n\
    .box .head .fill { flex: 1; }\n.tile {\ndisplay: inline-flex; align-items: center; justify-content: \
    center; font-weight: 800; border-radius: .28em;\nborder: .16em solid transparent;\n\
    min-width: 1.6em; height: 1.6em; line-height: 1; flex: none; position: relative;\n}\n\
    .tile.S { background: var(--blue); color: var(--blue-ink); border-color: var(--blue); }\n\
    .tile.E { background: var(--orange); color: var(--orange-ink); border-color: var(--orange); }\n\
    .tile.W { background: var(--blue); color: var(--blue-ink); border-color: var(--orange); }\n\
    .tile.R { border: .16em dashed var(--blue); color: var(--ink); }\n\
    .tile.B { border: .16em dashed var(--orange); color: var(--ink); }\n\
    .tile.none { border: .1em solid var(--line); color: var(--soft); font-weight: 400; }\n\
    .tile.old { opacity: .92; }\n.tile.current::after {\ncontent: \"\\2605 \"; position: absolute; \
    right: -.5em; top: -.6em; font-size: .62em; color: var(--ink);\n\
    text-shadow: 0 0 3px var(--panel), 0 0 3px var(--panel);\n}\n\
    .leaf .row { display: flex; gap: .5em; align-items: center; min-height: 0; }\n\
    .leaf .big { font-size: 1.75em; }\n\
    .leaf .words { font-size: .8em; line-height: 1.25; min-width: 0; overflow: hidden; }\n\
    .leaf .words .new { background: var(--mark); color: var(--mark-ink); border-radius: .2em; }\n\
    .leaf .minis {\ndisplay: flex; gap: .45em; font-size: .72em; overflow: hidden; white-space: nowrap; \
    min-height: 1.6em;\n}\n.mini { display: inline-flex; gap: .25em; align-items: center; }\n\
    .mini:hover { text-decoration: underline; }\n\
    .mini .tile { min-width: 1.45em; height: 1.45em; border-width: .14em; }\n.leaf .instr {\nfont-size: \
    .76em; white-space: nowrap; overflow: hidden; text-overflow: ellipsis; color: var(--soft);\n\
    border-top: 1px solid var(--faint); padding-top: .18em; margin-top: auto;\n}\n\
    .leaf .instr b { color: var(--ink); font-weight: 600; }\n.sends {\ndisplay: flex; gap: .3em; \
    min-height: 1.55em; align-items: center; flex-wrap: nowrap; overflow: hidden;\nfont-size: .86em;\n\
    }\n.chip {\ndisplay: inline-flex; gap: .3em; align-items: center; border-radius: .3em; padding: 0 \
    .38em; font-size: .8em;\nline-height: 1.5; white-space: nowrap;\n\
    border: .12em solid var(--grey); max-width: 100%; overflow: hidden; opacity: .62; flex: none;\n}\n\
    .chip.me { opacity: 1; font-weight: 650; }\n\
    .chip.fresh { box-shadow: 0 0 0 .16em var(--mark); opacity: 1; }\n\
    .chip.why { outline: .2em solid var(--ink); outline-offset: .1em; margin: .3em; opacity: 1; }\n\
    .chip.read { border-color: var(--blue); border-style: dashed; }\n\
    .chip.data { border-color: var(--blue); background: var(--blue); color: var(--blue-ink); }\n\
    .chip.erase { border-color: var(--red); background: var(--red); color: var(--red-ink); }\n\
    .chip.exclusive { border-color: var(--orange); background: var(--orange); color: var(--orange-ink); \
    }\n.chip.inject { border-color: var(--pink); background: var(--pink); color: var(--pink-ink); }\n\
    .chip.out { border-color: var(--grey); background: var(--grey); color: var(--grey-ink); }\n\
    .chip.parked { border-color: var(--pink); border-style: double; border-width: .2em; }\n.dir .lists \
    { display: grid; grid-template-columns: 1fr 1fr 1fr; gap: .3em; min-height: 0; flex: 1; }\n.list {\n\
    background: var(--faint); border-radius: .35em; padding: .12em .3em .2em; min-width: 0; display: \
    flex;\nflex-direction: column; gap: .16em; overflow: hidden;\n}\n.list .cap {\nfont-size: .68em; \
    color: var(--soft); white-space: nowrap; display: flex; justify-content: space-between;\n\
    gap: .3em;\n}\n.list.full { box-shadow: inset 0 0 0 .14em var(--red); }\n.list .stack {\ndisplay: \
    flex; flex-direction: column; gap: .14em; min-height: 0; overflow: hidden; align-items: \
    flex-start;\nflex: 1;\n}\n.list.downward .stack { flex-direction: column-reverse; }\n.note { \
    font-size: .8em; white-space: nowrap; overflow: hidden; text-overflow: ellipsis; color: var(--ink); \
    }\n.note .tag { border: .1em solid var(--soft); border-radius: .3em; padding: 0 .3em; font-weight: \
    650; }\n.mid .head, .small .head { font-size: .74em; gap: .25em; }\n\
    .mid.leaf .big { font-size: 1.5em; }\n\
    .mid.leaf .row { flex-direction: column; align-items: flex-start; gap: .15em; }\n.dir.mid .ways {\n\
    display: flex; gap: .4em; font-size: .9em; overflow: hidden; white-space: nowrap; align-items: \
    center;\n}\n.dir.mid .ways .sign { color: var(--soft); }\n\
    .box.mid { padding: .2em .28em; gap: .12em; }\n.box.small {\npadding: .1em; gap: .1em; align-items: \
    center; text-align: center; border-width: 1px; border-radius: .35em;\noverflow: visible;\n}\n\
    .small .tile { font-size: .95em; }\n\
    .small .nr { font-size: .66em; color: var(--soft); line-height: 1.1; }\n.small .marks {\nfont-size: \
    .62em; line-height: 1.05; display: flex; gap: .2em; justify-content: center; min-height: 1.1em;\n}\n\
    .dots { display: flex; flex-direction: column; gap: .2em; align-items: center; }\n\
    .dot { width: .9em; height: .9em; border-radius: .2em; border: .16em solid var(--soft); }\n\
    .dot.note { border-radius: 50%; background: var(--soft); }\n\
    .dot.read { border-color: var(--blue); }\n\
    .dot.data { background: var(--blue); border-color: var(--blue); }\n\
    .dot.erase { background: var(--red); border-color: var(--red); }\n\
    .dot.exclusive { background: var(--orange); border-color: var(--orange); }\n\
    .dot.inject, .dot.parked { background: var(--pink); border-color: var(--pink); }\n\
    .dir.small .marks .chip { font-size: 1em; padding: 0 .2em; line-height: 1.2; }\n\
    #moves path { fill: none; stroke-width: 5; stroke-linejoin: round; stroke-linecap: round; }\n\
    #moves path.halo { stroke: var(--bg); stroke-width: 10; }\n\
    #moves .read { stroke: var(--blue); stroke-dasharray: 2 9; }\n\
    #moves .data { stroke: var(--blue); }\n#moves .erase { stroke: var(--red); }\n\
    #moves .exclusive { stroke: var(--orange); }\n#moves .inject { stroke: var(--pink); }\n\
    #moves .out { stroke: var(--grey); }\n#moves .busy { stroke: var(--red); stroke-dasharray: 2 9; }\n\
    #moves polygon.read, #moves polygon.data { fill: var(--blue); stroke: none; }\n\
    #moves polygon.erase { fill: var(--red); stroke: none; }\n\
    #moves polygon.exclusive { fill: var(--orange); stroke: none; }\n\
    #moves polygon.inject { fill: var(--pink); stroke: none; }\n\
    #moves polygon.out { fill: var(--grey); stroke: none; }\n\
    #moves .token circle { stroke: var(--panel); stroke-width: 2.5; }\n\
    #moves .token.read circle { fill: var(--panel); stroke: var(--blue); }\n\
    #moves .token.data circle { fill: var(--blue); }\n#moves .token.erase circle { fill: var(--red); }\n\
    #moves .token.exclusive circle { fill: var(--orange); }\n\
    #moves .token.inject circle { fill: var(--pink); }\n\
    #moves .token.out circle { fill: var(--grey); }\n#caption {\nposition: absolute; left: .7em; top: \
    .5em; max-width: 22%; font-size: .8em; line-height: 1.35; color: var(--soft);\n}\n\
    #caption b { color: var(--ink); }\n.leaf .says { color: var(--soft); font-size: .95em; }\n#move {\n\
    grid-area: move; padding: .35rem .8rem .3rem; background: var(--panel); border-top: 1px solid \
    var(--line);\ndisplay: grid; gap: .3rem;\n}\n#move .line { display: flex; flex-wrap: wrap; gap: \
    .25rem .55rem; align-items: center; font-size: .88rem; }\n#move select { padding: .18rem .2rem; }\n\
    #scrub { position: relative; height: 1.7rem; }\n#density {\nposition: absolute; left: .5rem; right: \
    .5rem; top: .35rem; bottom: .35rem; width: calc(100% - 1rem);\n\
    height: calc(100% - .7rem); border-radius: .3rem; background: var(--faint);\n}\n#slider {\n\
    position: absolute; inset: 0; width: 100%; height: 100%; margin: 0; appearance: none; background: \
    transparent;\ncursor: pointer; padding: 0; border: 0;\n}\n#slider::-webkit-slider-thumb {\n\
    appearance: none; width: .9rem; height: 1.7rem; border-radius: .3rem; background: var(--ink);\n\
    border: .14rem solid var(--panel); box-shadow: var(--shadow);\n}\n#slider::-moz-range-thumb {\n\
    width: .9rem; height: 1.7rem; border-radius: .3rem; background: var(--ink); border: .14rem solid \
    var(--panel);\n}\n#goto { width: 4.2rem; text-align: right; }\n\
    .keys button { min-width: 1.9rem; padding: .2rem .35rem; }\n#top .keys { font-size: .9rem; }\n\
    #top .keys button { min-width: 1.5rem; padding: .12rem .3rem; }\n#lanes {\ngrid-area: lanes; \
    background: var(--panel); border-top: 1px solid var(--line); padding: .2rem .8rem .35rem;\n}\n\
    #lanehead {\n\
    display: flex; gap: .75rem; align-items: center; font-size: .74rem; color: var(--soft);\n\
    padding-bottom: .12rem; white-space: nowrap;\n}\n#lanehead .legend {\n\
    display: flex; flex-wrap: wrap; gap: .1rem .75rem; height: 1.25rem; overflow: hidden; flex: 1;\n\
    align-items: center;\n}\n#lanehead b { color: var(--ink); }\n\
    #lanehead .keys button { min-width: 1.7rem; padding: .05rem .35rem; }\n.red { color: var(--red); }\n\
    #lanehead .sw { display: inline-flex; align-items: center; gap: .3rem; }\n\
    #lanebox { overflow-y: auto; overflow-x: hidden; max-height: 23vh; position: relative; }\n\
    body.tall #lanebox { max-height: 52vh; }\n\
    #lanecanvas { display: block; width: 100%; cursor: crosshair; }\n.swatch {\nwidth: 1.05rem; height: \
    .7rem; border-radius: .15rem; display: inline-block; border: .12rem solid transparent;\n}\n\
    .swatch.S { background: var(--blue); }\n.swatch.E { background: var(--orange); }\n\
    .swatch.W { background: var(--blue); border-color: var(--orange); }\n\
    .swatch.R { border: .12rem dashed var(--blue); }\n\
    .swatch.B { border: .12rem dashed var(--orange); }\n.swatch.erase { background: var(--red); }\n\
    .swatch.note { background: var(--line); }\n#side {\n\
    grid-area: side; border-left: 1px solid var(--line); background: var(--panel); display: grid;\n\
    grid-template-rows: auto auto minmax(0, 1fr) auto; min-height: 0;\n}\n\
    #card { padding: .6rem .9rem .7rem; border-bottom: 1px solid var(--line); min-height: 11.5rem; }\n\
    #card .when { display: flex; gap: .6rem; align-items: baseline; }\n\
    #card .when b { font-size: 1.5rem; }\n#card .badge {\n\
    margin-left: auto; border-radius: .35rem; padding: .05rem .6rem; font-weight: 700;\n\
    border: .13rem solid var(--soft);\n}\n#card .badge.retired { background: var(--green); \
    border-color: var(--green); color: var(--panel); }\n\
    #card .badge.granted { background: var(--ink); border-color: var(--ink); color: var(--panel); }\n\
    #card .badge.issued { border-color: var(--blue); }\n\
    #card .badge.busy { border-color: var(--red); color: var(--red); }\n\
    #card .badge.waiting, #card .badge.empty { color: var(--soft); border-style: dashed; }\n\
    #card .tries { margin: .35rem 0 .3rem; }\n\
    #card .tries code { background: var(--faint); padding: .08rem .4rem; border-radius: .3rem; }\n\
    #card .answer { font-size: 1.12rem; }\n#card .answer + .more { margin-top: .25rem; }\n\
    #card .more { color: var(--soft); font-size: .94rem; }\n#card .stale { margin-top: .35rem; \
    border-left: .35rem solid var(--red); padding: .1rem 0 .1rem .6rem; }\n\
    #card .raw { margin-top: .3rem; color: var(--soft); font-size: .82rem; overflow-wrap: anywhere; }\n\
    #card details { font-size: .82rem; color: var(--soft); margin-top: .15rem; }\n\
    #card summary { cursor: pointer; }\n\
    #card details div { max-height: 9rem; overflow: auto; overflow-wrap: anywhere; }\n\
    #card details b { color: var(--ink); font-weight: 600; }\n\
    #tabs { display: flex; gap: .25rem; padding: .4rem .7rem .3rem; flex-wrap: wrap; }\n\
    #tabs button { padding: .15rem .6rem; }\n\
    #pane { overflow: auto; min-height: 0; padding: .1rem .9rem .6rem; position: relative; }\n";

const FRONT_1: &[u8] = b"\
    #pane h2 { font-size: 1rem; margin: .5rem 0 .3rem; }\n#pane p { margin: .3rem 0; }\n#foot {\n\
    padding: .25rem .9rem; border-top: 1px solid var(--line); font-size: .78rem; color: var(--soft);\n\
    display: flex; gap: .8rem; justify-content: space-between;\n}\n\
    #foot .ok::before { content: \"\\2713  \"; color: var(--green); font-weight: 700; }\n\
    #foot .bad { color: var(--red); font-weight: 700; }\n#order {\nposition: relative; height: 100%; \
    min-height: 18rem; display: grid; grid-template-rows: auto minmax(0, 1fr);\n}\n#orderhead {\n\
    display: flex; gap: .3rem .8rem; flex-wrap: wrap; align-items: center; font-size: .86rem;\n\
    padding-bottom: .25rem;\n}\n#orderbody { position: relative; overflow: hidden; }\n\
    #order { font-size: .96em; }\n\
    #orderbody .caption { position: absolute; top: 0; font-size: .76rem; color: var(--soft); }\n\
    #orderbody svg { position: absolute; left: 0; top: 0; overflow: visible; }\n.opt, .opo {\nposition: \
    absolute; white-space: nowrap; display: flex; align-items: center; gap: .45rem; font-size: .9rem;\n\
    border-radius: .3rem; padding: 0 .35rem; overflow: hidden;\n}\n\
    .opt { justify-content: flex-end; color: var(--soft); border: 0; background: none; }\n\
    .opo { border: 1px solid transparent; background: none; text-align: left; }\n\
    .opo .who { font-weight: 650; flex: none; }\n\
    .opo .what { overflow: hidden; text-overflow: ellipsis; min-width: 3rem; }\n\
    .opo .key { margin-left: auto; color: var(--soft); font-size: .78rem; flex: none; }\n\
    .opo.mine { background: var(--faint); }\n\
    .opo.newest, .opt.newest { background: var(--mark); color: var(--mark-ink); }\n\
    .opo.newest .key { color: inherit; }\n\
    .opo.recent, .opt.recent { box-shadow: inset 0 0 0 .13rem var(--mark); }\n\
    .opo.stale { border-color: var(--red); }\n.opo .flag {\ncolor: var(--red-ink); background: \
    var(--red); border-radius: .25rem; padding: 0 .35rem; font-size: .76rem;\nfont-weight: 700;\n}\n\
    #orderbody .link { fill: none; stroke: var(--line); stroke-width: 1.6; }\n\
    #orderbody .link.late { stroke: var(--red); stroke-width: 2.4; }\n\
    #orderbody .link.newest { stroke: var(--ink); stroke-width: 3.4; }\n\
    table { border-collapse: collapse; width: 100%; font-size: .88rem; }\nth {\n\
    text-align: left; color: var(--soft); font-weight: 600; border-bottom: 1px solid var(--line);\n\
    padding: .12rem .4rem .12rem 0; position: sticky; top: 0; background: var(--panel);\n}\n\
    td { padding: .1rem .4rem .1rem 0; vertical-align: top; border-bottom: 1px solid var(--faint); }\n\
    tr.chosen td { background: var(--mark); color: var(--mark-ink); }\n\
    tr.chosen .tile.R, tr.chosen .tile.B, tr.chosen .tile.none { color: var(--mark-ink); }\n\
    tr.go { cursor: pointer; }\n.regs {\ndisplay: grid; grid-template-columns: repeat(auto-fill, \
    minmax(9.2rem, 1fr)); gap: 0 .6rem; font-size: .84rem;\n}\n\
    .regs .new { background: var(--mark); color: var(--mark-ink); border-radius: .2rem; }\n.bars {\n\
    display: grid; grid-template-columns: auto 1fr auto; gap: .25rem .6rem; align-items: center;\n\
    font-size: .86rem;\n}\n.bars .track {\nposition: relative; height: 1.15rem; background: \
    var(--faint); border-radius: .25rem; overflow: hidden;\n}\n\
    .bars .all, .bars .now { position: absolute; left: 0; top: 0; bottom: 0; display: flex; }\n\
    .bars .all { opacity: .28; }\n.bars .all i, .bars .now i { display: block; height: 100%; }\ni.read \
    { background: repeating-linear-gradient(90deg, var(--blue) 0 .2rem, transparent .2rem .4rem); }\n\
    i.data { background: var(--blue); }\ni.erase { background: var(--red); }\n\
    i.exclusive { background: var(--orange); }\ni.out { background: var(--grey); }\n\
    i.inject { background: var(--pink); }\n.matrix .tile {\nfont-size: .74rem; min-width: 1.35rem; \
    height: 1.35rem; border-width: .13rem; margin: 0 .06rem .06rem 0;\n}\n.matrix.many .tile {\n\
    font-size: .6rem; min-width: 1rem; height: 1.05rem; margin: 0 1px 1px 0; border-width: 1.5px;\n}\n\
    .matrix.many .tile.none { border-color: transparent; }\n.listing { font-size: .88rem; }\n\
    .listing td:nth-child(-n+2) { white-space: nowrap; padding-right: 1rem; }\n\
    .listing .here td { background: var(--mark); color: var(--mark-ink); }\n\
    .kinds .sw { margin-right: .8rem; }\n\
    .kinds i { display: inline-block; width: 1.2rem; height: .8rem; }\n\
    .bars + table { margin-top: .8rem; }\ndialog {\n\
    border: 1px solid var(--line); border-radius: .7rem; background: var(--panel); color: var(--ink);\n\
    max-width: min(60rem, 92vw); max-height: 88vh; padding: 1rem 1.3rem; overflow: auto;\n}\n\
    dialog::backdrop { background: rgba(10, 14, 20, .55); }\n\
    dialog h2 { margin: .1rem 0 .5rem; font-size: 1.2rem; }\n\
    dialog h3 { margin: .9rem 0 .3rem; font-size: 1rem; }\ndialog kbd {\nborder: 1px solid var(--line); \
    border-bottom-width: .16rem; border-radius: .3rem; padding: 0 .4rem;\n\
    font: inherit; font-size: .9em; background: var(--faint);\n}\ndialog dl { display: grid; \
    grid-template-columns: auto 1fr; gap: .25rem .8rem; margin: 0; align-items: center; }\n\
    dialog dd { margin: 0; }\ndialog .two { display: grid; grid-template-columns: repeat(auto-fit, \
    minmax(20rem, 1fr)); gap: .2rem 1.6rem; }\ndialog textarea {\nwidth: 100%; min-height: 9rem; \
    background: var(--bg); border: 1px solid var(--line); border-radius: .4rem;\n}\n#tip {\n\
    position: fixed; z-index: 9; pointer-events: none; background: var(--ink); color: var(--panel);\n\
    border-radius: .4rem; padding: .2rem .55rem; font-size: .85rem; max-width: 30rem;\n}\n#drop {\n\
    z-index: 8; position: fixed; inset: 0; display: grid; place-items: center; background: var(--bg);\n\
    padding: 2rem; text-align: center;\n}\n@media (max-width: 1020px) {\n\
    #lanebox { max-height: none; }\nbody {\n\
    height: auto; overflow: auto; grid-template-columns: minmax(0, 1fr);\ngrid-template-areas: \"top\" \
    \"tree\" \"move\" \"side\" \"lanes\"; grid-template-rows: auto auto auto auto auto;\n}\n\
    #tree { height: 62vh; }\n#side { border-left: 0; grid-template-rows: auto auto 26rem auto; }\n}\n\
    body.plain #side > :not(#card), body.plain #lanes { display: none; }\nbody.plain {\n\
    grid-template-columns: minmax(0, 1fr); grid-template-areas: \"top\" \"tree\" \"side\" \"move\";\n\
    grid-template-rows: auto minmax(0, 1fr) auto auto;\n}\n\
    body.plain #side { border: 0; border-top: 1px solid var(--line); grid-template-rows: auto; }\n\
    body.plain #card { min-height: 8.5rem; font-size: 1.15rem; border: 0; }\n</style>\n</head>\n\
    <body class=\"empty\">\n<header id=\"top\">\n<h1>ddm <span class=\"soft\">run</span></h1>\n\
    <label>item <input type=\"search\" id=\"item\" list=\"itemlist\" aria-label=\"the item that is \
    shown: a number, an address or a name\" spellcheck=\"false\" autocomplete=\"off\"><datalist \
    id=\"itemlist\"></datalist></label>\n<label title=\"show the item of each turn (f)\"><input \
    type=\"checkbox\" id=\"follow\"> follow turns</label>\n\
    <button id=\"names\" title=\"give names to addresses\">Names&#x2026;</button>\n\
    <button id=\"stale\" class=\"hidden\" title=\"the next stale load (s)\"></button>\n\
    <span class=\"fill\"></span>\n<span class=\"group keys\"><span class=\"soft\">next turn of</span> \
    item<button id=\"itemback\" title=\"the one before (I)\" aria-label=\"previous turn of the \
    item\">&#x2039;</button><button id=\"itemnext\" title=\"next (i)\" aria-label=\"next turn of the \
    item\">&#x203a;</button></span>\n<span class=\"group keys\"><select id=\"hart\" \
    aria-label=\"hart\"></select><button id=\"hartback\" title=\"the one before (H)\" \
    aria-label=\"previous turn of the hart\">&#x2039;</button><button id=\"hartnext\" title=\"next \
    (h)\" aria-label=\"next turn of the hart\">&#x203a;</button></span>\n<span class=\"group \
    keys\"><select id=\"bus\" aria-label=\"bus\"></select><button id=\"busback\" title=\"the one before \
    (B)\" aria-label=\"previous turn of the bus\">&#x2039;</button><button id=\"busnext\" title=\"next \
    (b)\" aria-label=\"next turn of the bus\">&#x203a;</button></span>\n<span class=\"fill\"></span>\n\
    <button id=\"reportnow\" title=\"the report of the run cut at this turn\">Report</button>\n\
    <button id=\"plain\" title=\"the tree and the turn alone (p)\">Tree only</button>\n\
    <button id=\"theme\" title=\"dark or light (t)\" aria-label=\"dark or light\">&#x25d0;</button>\n\
    <button id=\"ask\" title=\"keys and signs (?)\" aria-label=\"help: keys and signs\">?</button>\n\
    </header>\n<main id=\"tree\" aria-label=\"the tree of buses\"><div id=\"stage\"><div id=\"caption\" \
    title=\"the item that is shown; [ and ] show another\"></div><svg id=\"wires\" \
    aria-hidden=\"true\"></svg><svg id=\"moves\" aria-hidden=\"true\"></svg></div></main>\n\
    <section id=\"move\" aria-label=\"going through the turns\">\n<div class=\"line\">\n<span \
    class=\"group keys\"><button id=\"first\" title=\"start (Home)\" \
    aria-label=\"start\">&#x2759;&#x25c0;</button><button id=\"back\" title=\"back (left arrow)\" \
    aria-label=\"one turn back\">&#x25c0;</button><button id=\"play\" aria-pressed=\"false\" \
    title=\"play (space)\">&#x25b6; Play</button><button id=\"next\" title=\"on (right arrow)\" \
    aria-label=\"one turn on\">&#x25b6;</button><button id=\"last\" title=\"end (End)\" \
    aria-label=\"end\">&#x25b6;&#x2759;</button></span>\n<label class=\"group\">turn <input \
    type=\"text\" id=\"goto\" inputmode=\"numeric\" aria-label=\"go to turn (g)\"> <span class=\"soft\" \
    id=\"of\"></span></label>\n<select id=\"speed\" aria-label=\"speed\" title=\"speed\"><option \
    value=\"0.5\">&#xbd; turn a second</option><option value=\"1\">1 turn a second</option><option \
    value=\"2\" selected>2 turns a second</option><option value=\"4\">4 turns a second</option><option \
    value=\"10\">10 turns a second</option><option value=\"30\">30 turns a second</option></select>\n\
    <select id=\"shown\" aria-label=\"which turns are stepped through and shown below\" title=\"which \
    turns are stepped through and shown below\"><option value=\"all\">every turn</option><option \
    value=\"acts\">turns that do something</option><option value=\"moves\">turns about moving \
    items</option><option value=\"item\">turns of this item</option></select>\n</div>\n<div \
    id=\"scrub\"><canvas id=\"density\" aria-hidden=\"true\"></canvas><input type=\"range\" \
    id=\"slider\" min=\"0\" value=\"0\" step=\"1\" aria-label=\"turn\"></div>\n</section>\n\
    <section id=\"lanes\" aria-label=\"time line\">\n<div id=\"lanehead\"><b id=\"lanetitle\"></b>\n\
    <span class=\"legend\"><span class=\"sw\"><i class=\"swatch S\"></i>S shared</span><span \
    class=\"sw\"><i class=\"swatch E\"></i>E exclusive</span><span class=\"sw\"><i class=\"swatch \
    R\"></i>R reads</span><span class=\"sw\"><i class=\"swatch W\"></i>W will write</span><span \
    class=\"sw\"><i class=\"swatch B\"></i>B reads to write</span><span class=\"sw\"><i class=\"swatch \
    erase\"></i>erase has to come down</span><span class=\"sw\"><i class=\"swatch note\"></i>under \
    way</span>\n<span class=\"sw\">&#x25cb; load &#x25a0; store &#x25b2; asks <span \
    class=\"red\">&#x25c6; stale</span> <span class=\"red\">&#xd7; busy</span></span></span>\n<span \
    class=\"group keys\"><button id=\"tall\" title=\"higher lanes (l)\" \
    aria-pressed=\"false\">&#x2195;</button><button id=\"zoomall\" title=\"the whole \
    run\">all</button><button id=\"zoomout\" title=\"-\" aria-label=\"less of \
    it\">&#x2212;</button><button id=\"zoomin\" title=\"+\" aria-label=\"more of \
    it\">+</button></span></div>\n<div id=\"lanebox\"><canvas id=\"lanecanvas\" role=\"img\" \
    aria-label=\"the states of the item at each leaf over the turns\"></canvas></div>\n</section>\n\
    <aside id=\"side\">\n<section id=\"card\" aria-label=\"this turn\"></section>\n<div id=\"tabs\" \
    role=\"tablist\"><button role=\"tab\" data-tab=\"order\">Order</button><button role=\"tab\" \
    data-tab=\"place\">Place</button><button role=\"tab\" data-tab=\"program\">Program</button><button \
    role=\"tab\" data-tab=\"items\">Items</button><button role=\"tab\" \
    data-tab=\"traffic\">Traffic</button></div>\n\
    <div id=\"pane\" role=\"tabpanel\" tabindex=\"0\"></div>\n\
    <div id=\"foot\"><span id=\"verdict\"></span><span>made by ddm</span></div>\n</aside>\n\
    <div id=\"live\" class=\"sr\" aria-live=\"polite\"></div>\n<div id=\"tip\" class=\"hidden\"></div>\n\
    <dialog id=\"help\">\n<h2>Keys and signs</h2>\n<div class=\"two\">\n\
    <section><h3>Going through the turns</h3><dl>\n<dt><kbd>&#x2190;</kbd> \
    <kbd>&#x2192;</kbd></dt><dd>one turn back, one on, of those that are shown</dd>\n\
    <dt><kbd>,</kbd> <kbd>.</kbd></dt><dd>the same, of all turns</dd>\n\
    <dt><kbd>PgUp</kbd> <kbd>PgDn</kbd></dt><dd>ten turns</dd>\n\
    <dt><kbd>Home</kbd> <kbd>End</kbd></dt><dd>start, end</dd>\n\
    <dt><kbd>space</kbd></dt><dd>play, pause</dd>\n\
    <dt><kbd>g</kbd></dt><dd>go to a turn by its number</dd>\n<dt><kbd>i</kbd> <kbd>h</kbd> \
    <kbd>b</kbd></dt><dd>next turn of the item, the hart, the bus (with shift: the one before)</dd>\n\
    <dt><kbd>s</kbd> <kbd>x</kbd></dt><dd>next stale load, next busy turn</dd></dl>\n\
    <h3>What is shown</h3><dl>\n<dt><kbd>[</kbd> <kbd>]</kbd></dt><dd>another item that moves</dd>\n\
    <dt><kbd>f</kbd></dt><dd>follow the item of each turn</dd>\n\
    <dt><kbd>1</kbd> &#x2026; <kbd>5</kbd></dt><dd>order, place, program, items, traffic</dd>\n\
    <dt><kbd>+</kbd> <kbd>&#x2212;</kbd> <kbd>l</kbd></dt><dd>more or less of the time line; higher \
    lanes</dd>\n\
    <dt><kbd>p</kbd> <kbd>t</kbd></dt><dd>tree and turn alone; dark or light</dd></dl></section>\n\
    <section><h3>What a leaf has of the item</h3><dl>\n<dt><span class=\"tile S\">S</span></dt><dd>a \
    shared copy</dd><dt><span class=\"tile E\">E</span></dt><dd>exclusive: the only copy, but for those \
    that an erase is still on its way to</dd>\n<dt><span class=\"tile R\">R</span></dt><dd>nothing: it \
    waits for a copy, to read</dd><dt><span class=\"tile W\">W</span></dt><dd>a shared copy: it waits \
    to be the only one, to write</dd>\n<dt><span class=\"tile B\">B</span></dt><dd>nothing: it waits \
    for a copy, to write</dd><dt><span class=\"tile none current\">&#x2013;</span></dt><dd>nothing. A \
    star marks the current copy of the item</dd></dl>\n\
    <p class=\"soft\">What fills a tile is what is there; its edge is what it waits for.</p>\n\
    <h3>What a bus grants</h3><dl>\n<dt><span class=\"chip read me\">read</span></dt><dd>asks for a \
    copy</dd><dt><span class=\"chip data me\">data</span></dt><dd>brings a copy to all that wait for \
    it</dd>\n<dt><span class=\"chip erase me\">erase</span></dt><dd>takes away (invalidates) all other \
    copies, so that one leaf may write</dd><dt><span class=\"chip exclusive \
    me\">exclusive</span></dt><dd>tells a leaf that it has the only copy</dd>\n<dt><span class=\"chip \
    inject me\">inject</span></dt><dd>moves a last copy to another place</dd><dt><span class=\"chip out \
    me\">out</span></dt><dd>drops a copy of which there is another</dd></dl></section>\n<section><h3>A \
    directory</h3><p>connects two buses. Its <b>down</b> list has what the bus above told it; the \
    lowest entry is taken first. Its <b>requests</b> and <b>replies</b> go up; the highest entry is \
    taken first. A <b>note</b> says what is under way for the item on the bus below. Numbers like 2/16 \
    say how many places of a list are taken; a full list has a red edge.</p></section>\n\
    <section><h3>The one order</h3><p>Every run is one order of one flat memory. Its <b>key</b> gives \
    each instruction its place: the moments that its leaf&#x2019;s buses know. An erase that \
    hasn&#x2019;t come down is a moment not yet known there, so a load may take its place before a \
    store that was completed earlier: it is <b>stale</b>, and its line crosses others.</p></section>\n\
    </div>\n<p><button data-close>Close</button></p>\n</dialog>\n<dialog id=\"namebox\">\n\
    <h2>Names of addresses</h2>\n<p>A line for each: an address and a name, as <code>nm</code> prints \
    them, or from the symbols of an ELF file. They are kept in the page&#x2019;s address, so a bookmark \
    has them.</p>\n<textarea id=\"nametext\" spellcheck=\"false\" placeholder=\"00011110 \
    data&#10;00011120 flag\"></textarea>\n\
    <p><input type=\"file\" id=\"elf\" aria-label=\"an ELF file with symbols\"></p>\n\
    <p><button id=\"namesdone\">Use these</button> <button data-close>Leave it</button></p>\n</dialog>\n\
    <dialog id=\"reportbox\"><h2>The report of the run cut here</h2><textarea id=\"reporttext\" \
    readonly style=\"min-height:50vh;min-width:70vw\" class=\"mono\" \
    spellcheck=\"false\"></textarea><p><button data-close>Close</button></p></dialog>\n<div \
    id=\"drop\"><div><h1>A run of the Data Diffusion Machine</h1><p id=\"dropsays\">This page has no \
    film. Drop a file with one here, or choose it:</p><p><input type=\"file\" \
    id=\"filmfile\"></p></div></div>\n<noscript><p>This page shows a run by a script of its own, and \
    needs one to be allowed. Nothing is loaded from elsewhere.</p></noscript>\n\
    <script type=\"text/plain\" id=\"film\">\n";

const BACK_0: &[u8] = b"\
    </script>\n<script>\n'use strict';\n\
    const THREE_WORDS = new Set(['reg', 'entry', 'dir']);   // parts whose key has two numbers\n\
    const EFFECTS_THAT_STORE = new Set(['store', 'scok', 'amo']);\n\
    const KINDS = ['read', 'data', 'erase', 'exclusive', 'out', 'inject'];\nfunction parseFilm(text) {\n\
    const lines = text.split('\\n');\nlet at = lines.findIndex(line => line.startsWith('film '));\n\
    if (at < 0) throw new Error('this is no film: no line begins with \\u201cfilm\\u201d');\nconst film \
    = {children: [], items: [], turns: [], keys: [], places: new Map(), start: [], report: [], sizes: \
    {}};\nconst place = key => {\nlet n = film.places.get(key);\n\
    if (n === undefined) { n = film.keys.length; film.places.set(key, n); film.keys.push(key); }\n\
    return n;\n};\nconst split = line => {\nlet end = line.indexOf(' ');\n\
    const head = end < 0 ? line : line.slice(0, end);\n\
    for (let more = THREE_WORDS.has(head) ? 2 : 1; more > 0; more--) {\n\
    end = line.indexOf(' ', end + 1);\nif (end < 0) return [line, ''];\n}\n\
    return [line.slice(0, end), line.slice(end + 1)];\n};\n\
    const values = [];    // of all parts, as they are\nlet turn = null;\n\
    for (; at < lines.length; at++) {\nconst line = lines[at];\nif (line === '') continue;\n\
    if (line.startsWith('t ')) {\nturn = parseTurn(line);\nfilm.turns.push(turn);\n\
    } else if (line.startsWith('tree ')) {\n\
    const [depth, ...children] = line.split(' ').slice(1).map(Number);\nfilm.depth = depth;\n\
    film.children = children;\n} else if (line.startsWith('sizes ')) {\n\
    const names = ['ways', 'sets', 'buffer', 'parking', 'down', 'requests', 'replies', 'bytes'];\n\
    line.split(' ').slice(1).forEach((n, k) => { film.sizes[names[k]] = Number(n); });\n\
    } else if (line.startsWith('item ')) {\nconst words = line.split(' ');\nfilm.items.push({number: \
    film.items.length, address: parseInt(words[2], 16), writable: words[3] === 'w'});\n\
    } else if (line.startsWith('ddm ')) {\n\
    for (; at < lines.length && lines[at] !== 'end'; at++) film.report.push(lines[at]);\n\
    film.report.push('end');\nbreak;\n} else if (!line.startsWith('film ')) {\n\
    const [key, value] = split(line);\nconst n = place(key);\n\
    if (turn) turn.changes.push(n, values[n] || '', value); else film.start[n] = value;\n\
    values[n] = value;\n}\n}\n\
    if (film.report.length === 0) throw new Error('the film is cut: it has no report');\n\
    shapeTree(film);\nnameItems(film);\nfindOperations(film);\nreturn film;\n}\n\
    function parseTurn(line) {\nconst w = line.split(' ');\n\
    const turn = {text: line, number: Number(w[1]), changes: [], item: -1, op: null};\nlet answer = 5;\n\
    if (w[2] === 'h') {\nturn.kind = 'h'; turn.hart = Number(w[3]); turn.victim = Number(w[4]);\n\
    } else {\nturn.kind = w[4]; turn.bus = Number(w[3]);\n\
    if (turn.kind !== 'd') { turn.child = Number(w[5]); answer = 6; }\n\
    if (turn.kind === 'l') { turn.choice = Number(w[6]); answer = 7; }\n}\n\
    turn.schedule = w.slice(2, answer).join(' ');\nturn.answer = w.slice(answer);\nreturn turn;\n}\n\
    function shapeTree(film) {\n\
    film.buses = film.children.map((count, bus) => ({bus, level: 0, parent: null, kids: []}));\n\
    film.leaves = [];\nlet next = 1, level = [0];\nfor (let depth = 0; depth < film.depth; depth++) {\n\
    const below = [];\nfor (const bus of level) {\n\
    for (let child = 0; child < film.children[bus]; child++) {\nif (depth === film.depth - 1) {\n\
    film.buses[bus].kids.push({leaf: film.leaves.length});\n\
    film.leaves.push({leaf: film.leaves.length, bus, child});\n} else {\n\
    film.buses[bus].kids.push({bus: next});\n\
    Object.assign(film.buses[next], {level: depth + 1, parent: bus, child});\nbelow.push(next++);\n}\n\
    }\n}\nlevel = below;\n}\n}\nfunction itemAt(film, address) {\n\
    let low = 0, high = film.items.length - 1;\nwhile (low <= high) {\n\
    const mid = (low + high) >> 1, first = film.items[mid].address;\n\
    if (address < first) high = mid - 1;\nelse if (address >= first + film.sizes.bytes) low = mid + 1;\n\
    else return mid;\n}\nreturn -1;\n}\nfunction nameItems(film) {\n\
    const itemOfKey = film.keys.map(key => {\nconst w = key.split(' ');\n\
    return w[0] === 'entry' || w[0] === 'dir' ? Number(w[2]) : w[0] === 'copy' ? Number(w[1]) : -1;\n\
    });\nfilm.items.forEach(item => { item.granted = 0; item.issued = 0; item.used = 0; });\n\
    for (const turn of film.turns) {\nconst a = turn.answer;\n\
    if (a[0] === 'issued' || a[0] === 'granted') turn.item = Number(a[2]);\n\
    else if (a[0] === 'waiting') turn.item = Number(a[1]);\n\
    else if (a[0] === 'busy' && a[1] === 'item') turn.item = Number(a[3]);\n\
    else if (a[0] === 'busy' && a[1] === 'room') turn.item = Number(a[2]);\nelse if (a[0] === 'retired' \
    && a.length > 2 && a[1] !== 'put') turn.item = itemAt(film, parseInt(a[2], 16));\n\
    const concerns = new Set();\nif (turn.item >= 0) concerns.add(turn.item);\n\
    for (let k = 0; k < turn.changes.length; k += 3) {\nconst x = itemOfKey[turn.changes[k]];\n\
    if (x >= 0) concerns.add(x);\n}\nturn.items = [...concerns];\nturn.idle = turn.changes.length === 0 \
    && (a[0] === 'waiting' || a[0] === 'empty' || a[0] === 'halted');\nif (turn.item >= 0) {\n\
    const item = film.items[turn.item];\nif (a[0] === 'granted') item.granted++;\n\
    else if (a[0] === 'issued') item.issued++;\nelse if (a[0] === 'retired') item.used++;\n}\n}\n}\n\
    function findOperations(film) {\nconst lines = new Map();\nfilm.witness = [];\n\
    for (const line of film.report) {\nif (!line.startsWith('op ')) continue;\n\
    const w = line.split(' ');\n\
    const op = {line, hart: Number(w[1]), key: w[2], pc: parseInt(w[3], 16), effect: w.slice(4),\n\
    rank: film.witness.length, turn: -1, stale: null};\nop.item = op.effect.length > 1 && op.effect[0] \
    !== 'put' ? itemAt(film, parseInt(op.effect[1], 16)) : -1;\n\
    lines.set(op.hart + ' ' + op.key.slice(op.key.lastIndexOf('.') + 1), op);\nfilm.witness.push(op);\n\
    }\nconst done = film.leaves.map(() => 0);\nfilm.ops = [];            // in order of completion\n\
    film.opsUpTo = [];        // how many are complete after each turn\n\
    for (const turn of film.turns) {\nif (turn.answer[0] === 'retired') {\n\
    const op = lines.get(turn.hart + ' ' + done[turn.hart]++);\n\
    if (!op) throw new Error('no line of the report for turn ' + turn.number);\nop.turn = turn.number;\n\
    turn.op = op;\nfilm.ops.push(op);\n}\nfilm.opsUpTo.push(film.ops.length);\n}\n\
    const stores = new Map();\nfilm.stale = [];\nfor (const op of film.ops) {\n\
    const [what, address] = op.effect;\nif (what === 'load' || what === 'lr') {\n\
    for (const store of stores.get(address) || []) {\n\
    if (store.rank > op.rank && (!op.stale || store.rank < op.stale.rank)) op.stale = store;\n}\n\
    if (op.stale) film.stale.push(op);\n} else if (EFFECTS_THAT_STORE.has(what)) {\n\
    if (!stores.has(address)) stores.set(address, []);\nstores.get(address).push(op);\n}\n}\n}\n\
    class Machine {\nconstructor(film) { this.film = film; this.reset(); }\nreset() {\n\
    this.values = this.film.start.slice();\nthis.at = -1;\n}\nmoveTo(turn) {\n\
    const turns = this.film.turns, at = Math.max(-1, Math.min(turn, turns.length - 1));\n\
    while (this.at < at) {\nconst c = turns[++this.at].changes;\n\
    for (let k = 0; k < c.length; k += 3) this.values[c[k]] = c[k + 2];\n}\nwhile (this.at > at) {\n\
    const c = turns[this.at--].changes;\n\
    for (let k = c.length - 3; k >= 0; k -= 3) this.values[c[k]] = c[k + 1];\n}\n}\nvalue(key) {\n\
    const n = this.film.places.get(key);\nreturn n === undefined ? '' : this.values[n] || '';\n}\n\
    list(key) {\nconst value = this.value(key);\n\
    return value === '' ? [] : value.slice(2).split(' | ').map(entry => entry.split(' '));\n}\n\
    entry(leaf, item) {\nconst value = this.value('entry ' + leaf + ' ' + item);\nif (value !== '') {\n\
    const w = value.split(' ');\n\
    return {state: w[0], way: Number(w[1]), place: -1, words: w.slice(2)};\n}\n\
    const buffer = this.value('buffer ' + leaf);\nif (buffer === '') return null;\n\
    const entries = this.list('buffer ' + leaf);\n\
    const place = entries.findIndex(e => Number(e[0]) === item);\nreturn place < 0 ? null : {state: \
    entries[place][1], way: -1, place, words: entries[place].slice(2)};\n}\ndir(bus, item) {\n\
    const w = this.value('dir ' + bus + ' ' + item).split(' ').filter(word => word !== '');\n\
    const is = {hold: '-', note: '', child: -1, joined: [], answering: false};\n\
    if (w[0] === 'S' || w[0] === 'E') is.hold = w.shift();\n\
    if (w[w.length - 1] === 'answering') { is.answering = true; w.pop(); }\n\
    if (w.length) { is.note = w[0]; is.child = Number(w[1]); is.joined = w.slice(2).map(Number); }\n\
    return is;\n}\ndownList(bus) {\nreturn this.list('down ' + bus)\n\
    .map(w => ({kind: w[0], item: Number(w[1]), stamp: bus === 0 ? ''\n\
    : w[2], words: w.slice(bus === 0 ? 2 : 3)}));\n}\nrequests(bus) { return this.list('requests ' + \
    bus).map(w => ({kind: w[0], item: Number(w[1]), words: []})); }\ncopies(key, kind) { return \
    this.list(key).map(w => ({kind, item: Number(w[0]), words: w.slice(1)})); }\nslot(leaf) {\n\
    const w = this.value('slot ' + leaf).split(' ');\n\
    return w[0] === '' ? null : {kind: w[0], item: Number(w[1])};\n}\ncurrent(item) {\n\
    const w = this.value('copy ' + item).split(' ');\nconst number = Number(w[1]);\n\
    if (w[0] === 'leaf') {\nconst e = this.entry(number, item);\n\
    return {leaf: number, entry: e, words: e ? e.words : []};\n}\n\
    const key = (w[2] === 'down' ? 'down ' : 'parked ') + number;\n\
    const entries = w[2] === 'down' ? this.downList(number) : this.copies(key, 'parked');\n\
    let place = -1;\nentries.forEach((e, k) => {\n\
    if (e.item === item && ['data', 'inject', 'parked'].includes(e.kind)) place = k;\n});\n\
    return {bus: number, list: w[2], place, words: place < 0 ? [] : entries[place].words};\n}\n\
    register(hart, r) { return r === 0 ? '00000000' : this.value('reg ' + hart + ' ' + r) || \
    '00000000'; }\npc(hart) { return parseInt(this.value('pc ' + hart), 16); }\n\
    halt(hart) { return this.value('halt ' + hart); }\ncounts() {\n\
    const counts = {turns: this.at + 1, retired: 0, granted: 0, busy: 0};\n\
    for (let n = 0; n <= this.at; n++) {\nconst what = this.film.turns[n].answer[0];\n\
    if (what in counts) counts[what]++;\n}\nreturn counts;\n}\ntraffic() {\nconst traffic = \
    this.film.buses.map(() => ({read: 0, data: 0, erase: 0, exclusive: 0, out: 0, inject: 0}));\n\
    for (let n = 0; n <= this.at; n++) {\nconst t = this.film.turns[n];\n\
    if (t.answer[0] === 'granted') traffic[t.bus][t.answer[1]]++;\n}\nreturn traffic;\n}\n\
    output(hart) {\nlet text = '';\nfor (let n = 0; n <= this.at; n++) {\n\
    const t = this.film.turns[n];\n\
    if (t.kind === 'h' && t.hart === hart && t.answer[1] === 'put') text += t.answer[2];\n}\n\
    return text;\n}\ndone(hart) {\nlet n = 0;\n\
    for (let k = 0; k < this.film.ops.length && this.film.ops[k].turn <= this.at; k++) {\n\
    if (this.film.ops[k].hart === hart) n++;\n}\nreturn n;\n}\nreport() {\n\
    const film = this.film, c = this.counts(), out = ['ddm 1'];\n\
    out.push(`turns ${c.turns} retired ${c.retired} granted ${c.granted} busy ${c.busy}`);\n\
    for (const {leaf} of film.leaves) {\nout.push(`hart ${leaf} ${this.halt(leaf)\n\
    || 'running'} pc ${this.value('pc ' + leaf)} done ${this.done(leaf)}`);\n\
    let regs = 'regs ' + leaf;\nfor (let r = 1; r < 32; r++) regs += ' ' + this.register(leaf, r);\n\
    out.push(regs, `out ${leaf} ${this.output(leaf) || '-'}`);\n}\nthis.traffic().forEach((t, bus) => \
    out.push(`bus ${bus} ` + KINDS.map(kind => `${kind} ${t[kind]}`).join(' ')));\n\
    for (const item of film.items) {\nconst copy = this.current(item.number);\n\
    const where = copy.bus !== undefined ? `bus ${copy.bus} ${copy.list} ${copy.place}`\n\
    : copy.entry && copy.entry.way >= 0 ? `leaf ${copy.leaf} way ${copy.entry.way}`\n\
    : `leaf ${copy.leaf} buffer ${copy.entry ? copy.entry.place : '?'}`;\n\
    const states = film.leaves.map(({leaf}) => this.entry(leaf, item.number));\n\
    const letters = states.map(entry => entry ? entry.state : '-').join('');\n\
    out.push(`item ${item.number} ${hex(item.address)} ${copy.words.join(' ')} ${where} ${letters}`);\n\
    }\nfor (const op of film.witness) if (op.turn <= this.at) out.push(op.line);\nout.push('end');\n\
    return out;\n}\n}\nconst hex = n => n.toString(16).padStart(8, '0');\nconst names = new Map();\n\
    function nameOf(address) {\nif (names.has(address)) return names.get(address);\nreturn null;\n}\n\
    function itemName(item) {\nconst {address} = film.items[item];\nconst found = [];\nfor (let a = \
    address; a < address + film.sizes.bytes; a++) if (names.has(a)) found.push(names.get(a));\nreturn \
    found.length ? found.slice(0, 2).join('/') + (found.length > 2 ? '\\u2026' : '') : 'item ' + item;\n\
    }\nfunction addressName(address) {\nconst name = nameOf(address);\n\
    return name ? name : address.toString(16);\n}\nfunction shortWord(word) {\n\
    const n = parseInt(word, 16);\n\
    return n < 10000 ? String(n) : n > 0xffffd8f0 ? String(n - 0x100000000) : word;\n}\nconst ABI = \
    ['zero', 'ra', 'sp', 'gp', 'tp', 't0', 't1', 't2', 's0', 's1', 'a0', 'a1', 'a2', 'a3', 'a4', 'a5',\n\
    'a6', 'a7',\n\
    's2', 's3', 's4', 's5', 's6', 's7', 's8', 's9', 's10', 's11', 't3', 't4', 't5', 't6'];\n\
    function codeWord(address) {\nconst item = itemAt(film, address);\n\
    if (item < 0 || address % 4) return null;\nconst w = startWords(item);\n\
    return w ? parseInt(w[(address - film.items[item].address) / 4], 16) : null;\n}\n\
    function startWords(item) {\nconst copy = startMachine.current(item);\n\
    return copy.words.length ? copy.words : null;\n}\nfunction disassemble(word, pc) {\n\
    const x = n => ABI[n];\nconst op = word & 127;\nconst rd = word >>> 7 & 31;\n\
    const f3 = word >>> 12 & 7;\nconst rs1 = word >>> 15 & 31;\nconst rs2 = word >>> 20 & 31;\n\
    const f7 = word >>> 25;\nconst immI = word >> 20, immS = (word >> 25 << 5) | rd;\nconst immB = \
    (word >> 31 << 12) | ((word >>> 7 & 1) << 11) | ((word >>> 25 & 63) << 5) | ((word >>> 8 & 15) << \
    1);\nconst immJ = (word >> 31 << 20) | ((word >>> 12 & 255) << 12) | ((word >>> 20 & 1) << 11)\n\
    | ((word >>> 21 & 1023) << 1);\nconst to = offset => addressName((pc + offset) >>> 0);\n\
    const is = (name, ...args) => name + (args.length ? ' ' + args.join(', ') : '');\n\
    const none = '.word 0x' + hex(word >>> 0);\nswitch (op) {\n\
    case 0x37: return is('lui', x(rd), '0x' + (word >>> 12).toString(16));\n\
    case 0x17: return is('auipc', x(rd), '0x' + (word >>> 12).toString(16));\n\
    case 0x6f: return rd === 0 ? is('j', to(immJ)) : is('jal', x(rd), to(immJ));\ncase 0x67: return f3 \
    !== 0 ? none : word === 0x8067 ? 'ret' : is('jalr', x(rd), immI + '(' + x(rs1) + ')');\n\
    case 0x63: {\nconst name = ['beq', 'bne', null, null, 'blt', 'bge', 'bltu', 'bgeu'][f3];\n\
    if (!name) return none;\nreturn rs2 === 0 && f3 < 2 ? is(name + 'z', x(rs1), to(immB)) : is(name, \
    x(rs1), x(rs2), to(immB));\n}\n\
    case 0x03: { const name = ['lb', 'lh', 'lw', null, 'lbu', 'lhu'][f3]; return name\n\
    ? is(name, x(rd), immI + '(' + x(rs1) + ')') : none; }\ncase 0x23: { const name = ['sb', 'sh', \
    'sw'][f3]; return name ? is(name, x(rs2), immS + '(' + x(rs1) + ')')\n: none; }\ncase 0x13: {\n\
    if (f3 === 1) return f7 === 0 ? is('slli', x(rd), x(rs1), rs2) : none;\nif (f3 === 5) {\nreturn f7 \
    === 0 ? is('srli', x(rd), x(rs1), rs2) : f7 === 32 ? is('srai', x(rd), x(rs1), rs2) : none;\n}\n\
    if (f3 === 0 && rs1 === 0) return word === 0x13 ? 'nop' : is('li', x(rd), immI);\n\
    if (f3 === 0 && immI === 0) return is('mv', x(rd), x(rs1));\n\
    return is(['addi', null, 'slti', 'sltiu', 'xori', null, 'ori', 'andi'][f3], x(rd), x(rs1), immI);\n\
    }\ncase 0x33: {\n\
    const name = f7 === 0 ? ['add', 'sll', 'slt', 'sltu', 'xor', 'srl', 'or', 'and'][f3] : f7 === 32\n\
    ? {0: 'sub', 5: 'sra'}[f3] : null;\nreturn name ? is(name, x(rd), x(rs1), x(rs2)) : none;\n}\n\
    case 0x0f: return f3 === 0 ? 'fence' : none;\n\
    case 0x73: return word === 0x73 ? 'ecall' : word === 0x100073 ? 'ebreak' : none;\ncase 0x2f: {\n\
    if (f3 !== 2) return none;\nconst f5 = word >>> 27;\n\
    const order = (word >>> 26 & 1 ? '.aq' : '') + (word >>> 25 & 1 ? '.rl' : '');\n\
    const mem = '(' + x(rs1) + ')';\n\
    if (f5 === 2) return rs2 === 0 ? is('lr.w' + order, x(rd), mem) : none;\nconst name = {3: 'sc', 0: \
    'amoadd', 1: 'amoswap', 4: 'amoxor', 8: 'amoor', 12: 'amoand', 16: 'amomin',\n\
    20: 'amomax', 24: 'amominu', 28: 'amomaxu'}[f5];\n\
    return name ? is(name + '.w' + order, x(rd), x(rs2), mem) : none;\n}\ndefault: return none;\n}\n}\n\
    function instructionAt(pc) {\nconst word = codeWord(pc);\n\
    return word === null ? 'nothing there' : disassemble(word | 0, pc);\n}\nconst STATES_NOW = {\n\
    S: 'has a shared copy now',\nE: 'has the exclusive copy now',\nR: 'waits for a copy now, to read',\n\
    W: 'has a shared copy and waits to be the only one, to write',\n\
    B: 'waits for a copy now, to write',\n'': 'has no copy any more',\n};\nfunction changesOf(turn) {\n\
    const changes = [];\nfor (let k = 0; k < turn.changes.length; k += 3) {\n\
    const [what, ...numbers] = film.keys[turn.changes[k]].split(' ');\n";

const BACK_1: &[u8] = b"\
    changes.push({what, numbers: numbers.map(Number), before: turn.changes[k + 1], after: \
    turn.changes[k + 2]});\n}\nreturn changes;\n}\n\
    const entriesOf = value => value.split('| ').slice(1).map(entry => entry.trim());\n\
    function addedTo({before, after}) {\nconst old = entriesOf(before), now = entriesOf(after);\n\
    return now.length > old.length ? now[now.length - 1].split(' ') : null;\n}\n\
    function changeWords(turn) {\nconst changes = changesOf(turn);\nreturn [...leafWords(turn, \
    changes), ...waitingWords(changes)].map(words => cap(words) + '.').join(' ');\n}\n\
    function leafWords(turn, changes) {\nconst buffered = new Map(changes.filter(c => c.what === \
    'buffer').map(c => [c.numbers[0], addedTo(c)]));\nconst leavesIn = new Map();\n\
    for (const {what, numbers: [leaf, item], before, after} of changes) {\n\
    const state = after.split(' ')[0];\n\
    if (what !== 'entry' || item !== turn.item || state === before.split(' ')[0]) continue;\n\
    const added = buffered.get(leaf);\n\
    if (state === '' && added && Number(added[0]) === item) continue;\n\
    leavesIn.set(state, (leavesIn.get(state) || []).concat({leaf}));\n}\n\
    const words = [...leavesIn].map(([state, kids]) => {\nconst now = STATES_NOW[state];\n\
    return `${together(kids)} ${kids.length > 1\n\
    ? now.replace(/^has/, 'have').replace(/^waits/, 'wait').replace('and waits', 'and wait') : now}`;\n\
    });\nfor (const [leaf, entry] of buffered) {\n\
    if (entry) words.push(`${itemName(Number(entry[0]))} goes to the buffer of leaf ${leaf}`);\n}\n\
    return words;\n}\nfunction waitingWords(changes) {\nconst places = new Map();\n\
    for (const change of changes) {\nconst [number] = change.numbers, entry = change.what === 'slot' ? \
    change.after.split(' ') : addedTo(change);\nif (!entry || entry[0] === '') continue;\n\
    const say = WAITS[change.what];\nif (!say) continue;\n\
    const [thing, list, kid] = say(entry, number);\n\
    const found = places.get(thing + '|' + list) || {thing, list, kids: []};\nfound.kids.push(kid);\n\
    places.set(thing + '|' + list, found);\n}\n\
    return [...places.values()].map(({thing, list, kids}) => {\n\
    const many = kids.length > 1 && !list.endsWith('s') && !list.startsWith('is');\n\
    return `${thing} ${list}${many ? 's' : ''} of ${together(kids)}`;\n});\n}\nconst asked = ([kind, \
    item]) => `${/^[aeiou]/.test(kind) ? 'an' : 'a'} ${kind} of ${itemName(Number(item))}`;\nconst down \
    = ([kind, item]) => kind === 'data' ? `data of ${itemName(Number(item))}` : asked([kind, item]);\n\
    const copied = ([item]) => `a copy of ${itemName(Number(item))}`;\nconst WAITS = {\n\
    slot: (entry, leaf) => [asked(entry), 'waits in the slot', {leaf}],\n\
    leafreplies: (entry, leaf) => [copied(entry), 'waits in the replies', {leaf}],\n\
    down: (entry, bus) => [down(entry), 'waits in the down list', {bus}],\n\
    requests: (entry, bus) => [asked(entry), 'waits in the requests', {bus}],\n\
    replies: (entry, bus) => [copied(entry), 'waits in the replies', {bus}],\n\
    parked: (entry, bus) => [copied(entry), 'is parked in the room', {bus}],\n};\n\
    const STATE_WORDS = {\nS: 'a shared copy',\n\
    E: 'exclusive, the only copy but for those that an erase is still on its way to',\n\
    R: 'no copy yet; it waits for one, to read',\n\
    W: 'a shared copy; it waits to be the only one, to write',\n\
    B: 'no copy yet; it waits for one, to write',\n'-': 'nothing',\n};\nconst STATES_SHORT = {\n\
    S: 'shared: may read',\nE: 'exclusive: may write',\nR: 'waits for a copy, to read',\n\
    W: 'shared; waits to be the only one',\nB: 'waits for a copy, to write',\n'-': 'no copy',\n};\n\
    const HALT_WORDS = {\nexit: code => `has ended, with ${code}`,\n\
    illegal: word => `has stopped: ${word} is no instruction`,\n\
    break: () => 'has stopped at a breakpoint',\n\
    call: number => `has stopped: there is no service ${number}`,\n\
    badtarget: address => `has stopped: a jump to ${address}, which is no multiple of 4`,\n\
    nofetch: address => `has stopped: there is no instruction at ${address}`,\nmisaligned: address => \
    `has stopped: ${address} isn\\u2019t a multiple of the access\\u2019s size`,\n\
    noload: address => `has stopped: it loads from ${address}, where nothing is`,\n\
    nostore: address => `has stopped: it stores to ${address}, which can\\u2019t be written`,\n};\n\
    const plural = (n, one, many) => n === 1 ? one : many || one + 's';\n\
    const cap = text => text[0].toUpperCase() + text.slice(1);\n\
    const kidName = kid => kid.leaf !== undefined ? 'leaf ' + kid.leaf : parentName(kid.bus);\n\
    function childName(bus, child) {\nconst kid = film.buses[bus].kids[child];\n\
    return kid ? kidName(kid) : 'child ' + child;\n}\nfunction parentName(bus) {\n\
    return bus === 0 ? 'the top' : 'directory ' + bus;\n}\nfunction numberWords(numbers) {\n\
    const runs = [];\nfor (const n of numbers) {\nconst last = runs[runs.length - 1];\n\
    if (last && last[1] === n - 1) last[1] = n; else runs.push([n, n]);\n}\n\
    const words = runs.flatMap(([x, y]) => x === y ? [x] : y === x + 1 ? [x, y] : [`${x} to ${y}`]);\n\
    return (words.length > 1 ? words.slice(0, -1).join(', ') + ' and ' : '') + words[words.length - \
    1];\n}\nfunction together(kids) {\n\
    const leaves = kids.filter(kid => kid.leaf !== undefined).map(kid => kid.leaf);\n\
    const buses = kids.filter(kid => kid.bus !== undefined).map(kid => kid.bus);\nconst say = [];\n\
    if (leaves.length) say.push(plural(leaves.length, 'leaf', 'leaves') + ' ' + numberWords(leaves));\n\
    if (buses.length === 1) say.push(parentName(buses[0]));\n\
    if (buses.length > 1) say.push('directories ' + numberWords(buses));\nreturn say.join(' and ');\n}\n\
    function turnWords(turn) {\nswitch (turn.kind) {\n\
    case 'h': return `Hart ${turn.hart} tries its next instruction`;\ncase 'd': return `Bus ${turn.bus} \
    takes what comes first in the down list of ${parentName(turn.bus)}`;\n\
    case 'q': return `Bus ${turn.bus} takes the first request of ${childName(turn.bus, turn.child)}`;\n\
    case 'r': return `Bus ${turn.bus} takes the first reply of ${childName(turn.bus, turn.child)}`;\n\
    default: return `Bus ${turn.bus} lets a copy leave ${childName(turn.bus, turn.child)}`;\n}\n}\n\
    function answerWords(turn, before) {\nconst a = turn.answer, name = turn.item >= 0 ? \
    itemName(turn.item) : '', hart = 'Hart ' + turn.hart;\nswitch (a[0]) {\n\
    case 'retired': return retiredWords(turn, before);\ncase 'issued':\nreturn a[1] === 'read'\n\
    ? [`${hart} has to wait: its leaf asks for a copy of ${name}.`, changeWords(turn)]\n\
    : [`${hart} has to wait: its leaf asks to be the only one with ${name}.`, changeWords(turn)];\n\
    case 'waiting': return [`${hart} still waits for ${name}.`, has(turn, before)];\ncase 'halted': {\n\
    const say = HALT_WORDS[a[1]], words = say ? say(a[2]) : a.slice(1).join(' ');\n\
    return [`${hart} ${words}${turn.changes.length ? '.' : ', in a turn before.'}`, ''];\n}\n\
    case 'empty': return ['There is nothing to take.', ''];\n\
    case 'busy': return busyWords(turn, name);\n\
    default: return [grantWords(turn, name), changeWords(turn)];\n}\n}\n\
    function retiredWords(turn, before) {\n\
    const [, what, address, one, two] = turn.answer, hart = 'Hart ' + turn.hart;\nconst at = address \
    === undefined ? '' : addressName(parseInt(address, 16)), now = has(turn, before);\n\
    const stores = () => `${hart} stores ${shortWord(two)} to ${at}, over ${shortWord(one)}`;\n\
    switch (what) {\ncase 'plain': return [`${hart} completes it. It needs no memory.`, ''];\n\
    case 'put': return [`${hart} puts out the byte ${address}${printable(address)}.`, ''];\n\
    case 'load': return [`${hart} loads ${shortWord(one)} from ${at}.`, now];\n\
    case 'lr': return [`${hart} loads ${shortWord(one)} from ${at}, and reserves the item.`, now];\n\
    case 'store': return [`${stores()}.`, now];\n\
    case 'scok': return [`${stores()}: it still has its reservation.`, now];\ncase 'scfail': return \
    [`${hart} doesn\\u2019t store to ${at}: it has no reservation of the item.`, ''];\ndefault: return \
    [`${hart} changes ${at} from ${shortWord(one)} to ${shortWord(two)}, at once.`, now];\n}\n}\n\
    function has(turn, before) {\nconst entry = before.entry(turn.hart, turn.item);\n\
    return entry ? `Leaf ${turn.hart} has it in ${entry.state}: ${STATE_WORDS[entry.state]}.` : '';\n}\n\
    function printable(byte) {\nconst n = parseInt(byte, 16);\n\
    return n > 32 && n < 127 ? ` (${String.fromCharCode(n)})` : '';\n}\nconst PENDING_WORDS = {\n\
    local: child => `a read of ${child} is being answered there`,\n\
    upread: child => `a read of ${child} was sent up from there`,\n\
    uperase: child => `${child} is ending all other copies`,\n\
    answering: (child, bus) => `${parentName(bus)} is asked for it from above`,\n\
    down: (child, bus) => `something about it is in the down list of ${parentName(bus)}`,\n};\n\
    const LIST_WORDS = {\ndown: number => `the down list of ${parentName(number)} is`,\n\
    requests: number => `the requests of ${parentName(number)} are`,\n\
    replies: number => `the replies of ${parentName(number)} are`,\n\
    leafreplies: number => `the replies of leaf ${number} are`,\n};\nfunction busyWords(turn, name) {\n\
    const a = turn.answer;\nswitch (a[1]) {\ncase 'item': {\n\
    const bus = Number(a[2]), child = a[5] === undefined ? '' : childName(bus, Number(a[5]));\nreturn \
    [`Not now: ${name} is under way on bus ${bus}.`, `On that bus ${PENDING_WORDS[a[4]](child, \
    bus)}.`];\n}\ncase 'queue':\nreturn [`Not now: ${LIST_WORDS[a[2]](Number(a[3]))} full.`, 'Something \
    has to go on from there first.'];\ncase 'buffer':\n\
    return [`Not now: the buffer of leaf ${a[2]} is full, so no way can be freed.`,\n\
    'A copy has to leave it first.'];\n\
    case 'parking': return [`Not now: nothing more can be parked at bus ${a[2]}.`, ''];\n\
    default: return [`Not now: there is no room for ${name}.`, ''];\n}\n}\n\
    function grantWords(turn, name) {\n\
    const a = turn.answer, from = a.indexOf('from'), to = a.indexOf('to');\n\
    const source = a[from + 1] === 'child' ? childName(turn.bus, turn.child) : a[from + 1];\n\
    const taker = a[to + 1] === 'child' ? childName(turn.bus, Number(a[to + 2])) : a[to + 1];\n\
    const down = source === 'parent', up = parentName(turn.bus), takes = GRANTS[a[1]];\nreturn \
    takes({bus: turn.bus, name, from: down ? up : source, to: taker, down, up, readers: \
    readersOf(turn)});\n}\nconst GRANTS = {\nread({bus, name, from, to, down, up}) {\n\
    const asks = down ? `A read of ${name} came down to bus ${bus}` : `${cap(from)} asks for ${name}`;\n\
    if (to === 'joined') {\n\
    return `The read of ${from} joins one of ${name} that is under way: one answer will serve both.`;\n\
    }\nif (to === 'parent') return `${asks}, and the read goes up to ${up}.`;\n\
    if (to === 'parking') return `${asks}: the copy that is parked at bus ${bus} answers it.`;\n\
    return `${asks}: ${to} has it, and is to answer.`;\n},\n\
    data({name, from, to, down, up, readers}) {\n\
    if (to === 'parent') return `The reply of ${from} goes up to ${up}.`;\n\
    const takers = to === 'readers' ? readers : to;\nreturn down ? `${cap(name)} comes down to \
    ${takers}.` : `${cap(from)} gives ${name} to ${takers}.`;\n},\nerase({bus, name, from, down}) {\n\
    return down ? `The erase of ${name} has come down to bus ${bus}: all copies there are told to \
    end.`\n: `${cap(from)} is to be the only one with ${name}: all other copies on bus ${bus} are told \
    to end.`;\n},\n\
    exclusive: ({name, to}) => `${cap(to)} is told that it has the only copy of ${name}.`,\n\
    out({bus, name, from, to}) {\nreturn to === 'gone' ? `The shared copy of ${name} in ${from} is \
    dropped: there is another on bus ${bus}.`\n\
    : `The shared copy of ${name} leaves ${from}, and is parked at bus ${bus}.`;\n},\n\
    inject({bus, name, from, to, down, readers}) {\nconst comes = down ? `A last copy of ${name} came \
    down` : `The last copy of ${name} leaves ${from}`;\n\
    if (to === 'parking') return `${comes}: nobody has room, so it is parked at bus ${bus}.`;\n\
    return to === 'readers' ? `${comes}: ${readers} waited for it.` : `${comes}, and ${to} takes it.`;\n\
    },\n};\nfunction takers(turn) {\nconst found = new Set();\n\
    for (const {what, numbers: [number]} of changesOf(turn)) {\n\
    const child = film.buses[turn.bus].kids.findIndex(kid =>\n\
    kid.leaf !== undefined ? (what === 'entry' || what === 'buffer') && kid.leaf === number\n\
    : what === 'down' && kid.bus === number);\nif (child >= 0) found.add(child);\n}\n\
    if (turn.answer[turn.answer.indexOf('from') + 1] === 'child') found.delete(turn.child);\n\
    return [...found].sort((x, y) => x - y);\n}\n\
    const readersOf = turn => together(takers(turn).map(child => film.buses[turn.bus].kids[child]));\n\
    function erasesAbove(leaf, item) {\nconst found = [];\n\
    for (let bus = film.leaves[leaf].bus; bus !== null; bus = film.buses[bus].parent) {\nif \
    (machine.downList(bus).some(entry => entry.kind === 'erase' && entry.item === item)) \
    found.push({bus});\n}\nreturn found;\n}\nfunction isWhyStale(entry, key) {\n\
    const turn = film.turns[machine.at];\nreturn Boolean(turn && turn.op && turn.op.stale) && \
    entry.kind === 'erase' && entry.item === turn.item\n\
    && erasesAbove(turn.op.hart, turn.item).some(({bus}) => key === 'down ' + bus);\n}\n\
    function losesCopy(op) {\nconst key = `entry ${op.hart} ${op.item}`;\n\
    return film.turns.find(turn => turn.number > op.turn && turn.changes.some((part, k) =>\n\
    k % 3 === 0 && film.keys[part] === key && turn.changes[k + 2] === ''));\n}\n\
    function staleWords(op) {\n\
    const store = op.stale, ago = op.turn - store.turn, waits = erasesAbove(op.hart, op.item);\n\
    const how = waits.length\n? `Before that store, every other copy was sent an erase (an invalidate). \
    The one for leaf ${op.hart}`\n\
    + ` still waits in the down list of ${together(waits)}, ringed in the picture`\n\
    : `Leaf ${op.hart} hasn\\u2019t heard of that store yet`;\nreturn [\n`An old value: hart \
    ${store.hart} stored ${shortWord(store.effect[3])} here in turn ${store.turn}, ${ago}`\n\
    + ` ${plural(ago, 'turn')} ago.`,\n`${how}. So leaf ${op.hart} reads its own copy.`,\n`This is \
    legal: in the one order of all instructions this load comes before that store, since its key`\n\
    + ` ${op.key} is less than ${store.key}. Under \\u201cOrder\\u201d its line crosses others.`,\n];\n\
    }\nfunction el(tag, attributes, ...kids) {\nconst e = document.createElement(tag);\n\
    for (const [name, value] of Object.entries(attributes || {})) {\n\
    if (name === 'class') e.className = value;\n\
    else if (name.startsWith('on')) e.addEventListener(name.slice(2), value);\n\
    else if (value !== null && value !== false) e.setAttribute(name, value);\n}\n\
    for (const kid of kids.flat()) if (kid !== null && kid !== undefined) e.append(kid);\nreturn e;\n}\n\
    function svg(tag, attributes) {\n\
    const e = document.createElementNS('http://www.w3.org/2000/svg', tag);\n\
    for (const [name, value] of Object.entries(attributes)) e.setAttribute(name, value);\nreturn e;\n}\n\
    const escapeText = text => String(text)\n\
    .replace(/[&<>\"]/g, c => ({'&': '&amp;', '<': '&lt;', '>': '&gt;', '\"': '&quot;'})[c]);\n\
    const picture = {boxes: [], labels: [], width: 0, height: 0};\nfunction layOut() {\nsizeLanes();\n\
    const room = document.querySelector('#tree'), stage = document.querySelector('#stage');\n\
    const W = room.clientWidth, H = room.clientHeight, leaves = film.leaves.length;\n\
    const per = (W - 16) / leaves;\nconst mode = per >= 150 ? 'big' : per >= 62 ? 'mid' : 'small';\n\
    const rows = {big: {top: 3.6, dir: 7.7, leaf: 8.2, gap: 1.9}, mid: {top: 3.6, dir: 6.2, leaf: 9.2, \
    gap: 1.7},\nsmall: {top: 3.6, dir: 4.8, leaf: 3.7, gap: 1.6}}[mode];\n\
    const units = rows.top + (film.depth - 1) * rows.dir + rows.leaf + film.depth * 2 * rows.gap + .8;\n\
    const widest = {big: per / 11.5, mid: per / 5.4, small: per / 1.72}[mode];\nconst em = Math.max(10, \
    Math.min(H / units, {big: 26, mid: 20, small: 16}[mode], mode === 'small' ? 16\n\
    : Math.max(widest, 10)));\nconst leafEm = Math.max(8, Math.min(em, widest));\n\
    stage.style.fontSize = em + 'px';\n\
    const leafHeight = mode === 'small' ? rows.leaf * leafEm : rows.leaf * em;\nconst boxes = rows.top \
    * em + (film.depth - 1) * rows.dir * em + leafHeight, gaps = 2 * film.depth;\n\
    const height = Math.max(H, boxes + gaps * rows.gap * em + .8 * em);\n\
    const gap = Math.min((height - boxes - .8 * em) / gaps, 3.6 * em);\n\
    let y = Math.max(.4 * em, (height - boxes - gaps * gap) / 2);\n\
    const levels = [];      // y of the directories over each level, of its bus\n\
    for (let level = 0; level < film.depth; level++) {\n\
    const h = (level === 0 ? rows.top : rows.dir) * em;\n\
    levels.push({dir: y, dirHeight: h, bus: y + h + gap});\ny += h + 2 * gap;\n}\nconst leafTop = y;\n\
    stage.style.width = W + 'px';\nstage.style.height = height + 'px';\nconst x0 = 8, middle = {leaf: \
    leaves === 0 ? [] : film.leaves.map((_, n) => x0 + per * (n + .5)), bus: []};\nconst span = [];\n\
    for (let bus = film.buses.length - 1; bus >= 0; bus--) {\n";

const BACK_2: &[u8] = b"\
    const kids = film.buses[bus].kids;\nconst firsts = kids.map(kid => kid.leaf !== undefined\n\
    ? [middle.leaf[kid.leaf] - per / 2, middle.leaf[kid.leaf] + per / 2] : span[kid.bus]);\n\
    span[bus] = [firsts[0][0], firsts[firsts.length - 1][1]];\n\
    middle.bus[bus] = (span[bus][0] + span[bus][1]) / 2;\n}\nObject.assign(picture, {mode, em, per, \
    levels, leafTop, leafHeight, middle, span, width: W, height, boxes: [],\nlabels: [], seen: []});\n\
    stage.querySelectorAll('.box, .buslabel').forEach(e => e.remove());\n\
    const wires = stage.querySelector('#wires');\nwires.replaceChildren();\n\
    wires.setAttribute('width', W); wires.setAttribute('height', height);\n\
    const moves = stage.querySelector('#moves');\n\
    moves.setAttribute('width', W); moves.setAttribute('height', height);\n\
    picture.dir = []; picture.leaf = []; picture.bar = [];\n\
    for (const {bus, level, kids} of film.buses) {\nconst {dir, dirHeight, bus: barY} = levels[level];\n\
    const share = span[bus][1] - span[bus][0] - Math.min(10, per * .12);\n\
    const width = level === 0 ? Math.min(26 * em, W - 16) : Math.min(share, 28 * em);\n\
    const dirMode = level === 0 || width >= 17 * em ? 'big' : width >= 7.2 * em ? 'mid' : 'small';\n\
    picture.dir[bus] = {x: middle.bus[bus], top: dir, bottom: dir + dirHeight, width, mode: dirMode};\n\
    const at = kids.map(kid => kid.leaf !== undefined ? middle.leaf[kid.leaf] : middle.bus[kid.bus]);\n\
    const reach = Math.min(1.3 * em, share * .36);\n\
    const [left, right] = [Math.min(at[0], middle.bus[bus]) - (kids.length === 1 ? reach : 0),\n\
    Math.max(at[at.length - 1], middle.bus[bus]) + (kids.length === 1 ? reach : 0)];\n\
    wires.append(svg('line',\n\
    {class: 'wire', x1: middle.bus[bus], y1: dir + dirHeight, x2: middle.bus[bus], y2: barY}));\n\
    kids.forEach((kid, n) =>\nwires.append(svg('line',\n\
    {class: 'wire', x1: at[n], y1: barY, x2: at[n], y2: kid.leaf !== undefined ? leafTop\n\
    : levels[level + 1].dir})));\n\
    const bar = svg('line', {class: 'bar', x1: left, y1: barY, x2: right, y2: barY});\n\
    wires.append(bar);\npicture.bar[bus] = {y: barY, left, right, line: bar};\n\
    if (dirMode !== 'small' || film.buses.length < 12) {\n\
    const label = el('div', {class: 'buslabel'});\n\
    label.style.left = (kids.length === 1 ? middle.bus[bus] + .5 * em : left + .3 * em) + 'px';\n\
    label.style.top = barY - 1.55 * em + 'px';\nstage.append(label);\npicture.labels[bus] = label;\n}\n\
    const box = el('div', {class: `box dir ${dirMode}`, tabindex: 0, role: 'button', 'data-bus': \
    bus});\nplace(box, middle.bus[bus] - width / 2, dir, width, dirHeight);\nif (dirMode === 'small') \
    box.style.fontSize = Math.min(em, width / (width < 34 ? 1.75 : 2.6)) + 'px';\nstage.append(box);\n\
    picture.boxes.push({box, fill: () => fillDir(bus, dirMode, width), shown: null, about: {bus}});\n}\n\
    film.leaves.forEach((_, leaf) => {\n\
    const width = Math.min(per - Math.max(2, Math.min(14, per * .09)), 25 * em);\npicture.leaf[leaf] = \
    {x: middle.leaf[leaf], top: leafTop, bottom: leafTop + leafHeight, width, mode};\nconst box = \
    el('div', {class: `box leaf ${mode}`, tabindex: 0, role: 'button', 'data-leaf': leaf});\n\
    place(box, middle.leaf[leaf] - width / 2, leafTop, width, leafHeight);\n\
    box.style.fontSize = leafEm + 'px';\nstage.append(box);\npicture.boxes.push({box, fill: () => \
    fillLeaf(leaf, mode, width / leafEm), shown: null, about: {leaf}});\n});\n}\n\
    function place(box, left, top, width, height) {\nObject.assign(box.style, {left: left + 'px', top: \
    top + 'px', width: width + 'px', height: height + 'px'});\n}\n\
    function tile(state, classes, title) {\nconst none = !state || state === '-';\nreturn `<span \
    class=\"tile ${none ? 'none' : state} ${classes || ''}\" data-state=\"${none ? '-' : \
    state}\"${title\n? ` title=\"${escapeText(title)}\"` : ''}>${none ? '\\u2013' : state}</span>`;\n}\n\
    function chip(entry, fresh, short, why) {\nconst mine = entry.item === ui.item, kind = entry.kind;\n\
    const label = kind === 'parked' ? itemName(entry.item) : short\n\
    ? {read: 'rd', data: 'da', erase: 'er', exclusive: 'ex', inject: 'in'}[kind]\n\
    : `${kind} ${itemName(entry.item).replace(/^item /, '')}`;\n\
    const title = `${kind} ${itemName(entry.item)}${entry.words.length ? ': ' + entry.words.join(' ')\n\
    : ''}${entry.stamp ? ', told at moment ' + entry.stamp : ''}`;\n\
    return `<span class=\"chip ${kind}${mine ? ' me' : ''}${fresh ? ' fresh' : ''}${why ? ' why'\n\
    : ''}\" title=\"${escapeText(title)}\">${escapeText(label)}</span>`;\n}\nfunction isFresh(key) {\n\
    const turn = film.turns[machine.at];\nif (!turn) return false;\n\
    for (let k = 0; k < turn.changes.length; k += 3) {\nif (film.keys[turn.changes[k]] === key) return \
    turn.changes[k + 2].length > turn.changes[k + 1].length;\n}\nreturn false;\n}\n\
    function chips(entries, key, most, short) {\nconst fresh = isFresh(key);\n\
    const shown = entries.slice(0, entries.length > most ? most - 1 : most)\n\
    .map((e, n) => chip(e, fresh && n === entries.length - 1, short, isWhyStale(e, key)));\n\
    if (entries.length > shown.length) {\nconst rest = entries.slice(shown.length);\n\
    const mine = rest.find(e => e.item === ui.item);\nshown.push(mine ? chip(mine, false, short)\n\
    + `<span class=\"soft\" style=\"font-size:.75em\">+${rest.length - 1}</span>`\n\
    : `<span class=\"soft\" style=\"font-size:.75em\">+${rest.length} more</span>`);\n}\n\
    return shown.join('');\n}\nfunction listBox(caption, entries, key, room, classes, most, short) {\n\
    const full = room > 0 && entries.length >= room;\nreturn `<div class=\"list ${classes}${full ? ' \
    full' : ''}\"><div class=\"cap\"><span>${caption}</span>`\n\
    + `<span>${entries.length || full ? `${entries.length}/${room}` : ''}</span></div>`\n\
    + `<div class=\"stack\">${chips(entries, key, most, short)}</div></div>`;\n}\n\
    function noteWords(bus, d) {\nconst say = [];\nif (d.note === 'local') say.push(`<span \
    class=\"tag\">local</span> for ${childName(bus, d.child)}`);\nif (d.note === 'upread') \
    say.push(`<span class=\"tag\">up-read</span> for ${childName(bus, d.child)}`);\nif (d.note === \
    'uperase') say.push(`<span class=\"tag\">up-erase</span> of ${childName(bus, d.child)}`);\n\
    if (d.joined.length) say.push('joined: ' + d.joined.map(c => childName(bus, c)).join(', '));\n\
    if (d.answering) say.push('<span class=\"tag\">answering</span>');\nreturn say.join(' \\u00b7 ');\n\
    }\nfunction fillDir(bus, mode, px) {\n\
    const d = machine.dir(bus, ui.item), top = bus === 0, s = film.sizes;\n\
    const down = machine.downList(bus);\nconst requests = machine.requests(bus);\n\
    const replies = machine.copies('replies ' + bus, 'data');\n\
    const parked = machine.copies('parked ' + bus, 'parked');\n\
    const copy = machine.current(ui.item), star = copy.bus === bus;\n\
    if (mode === 'small' && px < 34) {\n\
    const dots = [...down, ...requests, ...replies, ...parked].filter(e => e.item === ui.item)\n\
    .map(e => `<i class=\"dot ${e.kind}\" title=\"${e.kind}\"></i>`).join('');\n\
    return tile(d.hold, star ? 'current' : '', 'holds ' + d.hold)\n\
    + `<div class=\"dots\">${d.note || d.answering\n\
    ? '<i class=\"dot note\" title=\"' + (d.note || 'answering') + '\"></i>' : ''}${dots}</div>`;\n}\n\
    if (mode === 'small') {\nconst mine = list => list.filter(e => e.item === ui.item)\n.map(e => \
    e.kind === 'parked' ? '<span class=\"chip parked me\">pk</span>' : chip(e, false, true)).join('');\n\
    const others = down.length + requests.length + replies.length + parked.length;\n\
    const signs = mine(down) + mine(requests) + mine(replies) + mine(parked);\n\
    return tile(d.hold, star ? 'current' : '', 'holds ' + d.hold)\n\
    + `<div class=\"marks\">${d.note ? '<b title=\"' + d.note + '\">\\u25cf</b>' : ''}${d.answering\n? \
    '<b title=\"answering\">\\u25c6</b>' : ''}${signs}</div><div class=\"nr\">${top ? 'top' : \
    bus}${others\n? ' \\u00b7 ' + others : ''}</div>`;\n}\n\
    const name = top ? 'the top' : (mode === 'big' ? 'directory ' : 'dir ') + bus;\nconst holds = top ? \
    '' : tile(d.hold, star ? 'current' : '', 'what this directory holds of the item');\n\
    const note = noteWords(bus, d);\nif (mode === 'mid') {\n\
    const way = (sign, entries, key) => entries.length\n\
    ? `<span class=\"sign\">${sign}</span>${chips(entries, key, 2, true)}` : '';\n\
    const ways = way('\\u25bc', down, 'down ' + bus) + way('\\u25b2', requests, 'requests ' + bus)\n\
    + way('\\u25b2', replies, 'replies ' + bus) + way('\\u25a3', parked, 'parked ' + bus);\n\
    return `<div class=\"head\"><b>${name}</b><span class=\"fill\"></span>${holds}</div>`\n\
    + `<div class=\"note\">${note}</div><div class=\"ways\">${ways}</div>`;\n}\n\
    const head = `<div class=\"head\"><b>${name}</b>${top ? '<span>holds every item</span>' : holds}`\n\
    + `<span class=\"note\">${note}</span></div>`;\nif (top) {\nreturn head + `<div \
    class=\"sends\">${down.length ? '<span class=\"soft\">\\u25bc</span>' + chips(down, 'down 0', 3)\n\
    : ''}</div>`;\n}\nconst room = 4;\nconst kept = Number(machine.value('kept ' + bus)) || 0;\nconst \
    asks = listBox('\\u25b2 requests', requests, 'requests ' + bus, s.requests, '', parked.length || \
    kept ? 1\n: room, false);\nconst park = parked.length || kept\n? listBox('parked' + (kept ? `, \
    ${kept} kept` : ''), parked, 'parked ' + bus, s.parking, '', 2, false) : '';\nreturn head + '<div \
    class=\"lists\">' + listBox('\\u25bc down', down, 'down ' + bus, s.down, 'downward', room, false)\n\
    + (park ? `<div style=\"display:grid;gap:.2em;min-height:0\">${asks}${park}</div>` : asks)\n\
    + listBox('\\u25b2 replies', replies, 'replies ' + bus, s.replies, '', room, false) + '</div>';\n}\n\
    function wordTexts(words, old, most) {\nreturn words.slice(0, most)\n\
    .map((w, n) => `<span class=\"mono${old && old[n] !== w ? ' new' : ''}\">${w}</span>`).join(' ')\n\
    + (words.length > most ? ' \\u2026' : '');\n}\nfunction entryBefore(leaf, item) {\n\
    const turn = film.turns[machine.at];\nif (!turn || turn.changes.length === 0) return undefined;\n\
    for (let k = 0; k < turn.changes.length; k += 3) {\n\
    if (film.keys[turn.changes[k]] === `entry ${leaf} ${item}`) {\n\
    const w = turn.changes[k + 1].split(' ');\nreturn w[0] ? {state: w[0], words: w.slice(2)} : null;\n\
    }\n}\nreturn undefined;\n}\nfunction fillLeaf(leaf, mode, wide) {\nconst e = machine.entry(leaf, \
    ui.item), copy = machine.current(ui.item), star = copy.leaf === leaf;\n\
    const slot = machine.slot(leaf);\nconst replies = machine.copies('leafreplies ' + leaf, 'data');\n\
    const halt = machine.halt(leaf);\nconst title = e ? STATE_WORDS[e.state] : 'nothing';\n\
    const slotChip = slot ? chip({...slot, words: []}, isFresh('slot ' + leaf), mode !== 'big') : '';\n\
    if (mode === 'small') {\nconst sign = slot ? (slot.item === ui.item ? chip({...slot, words: []}, \
    false, true) : '\\u00b7') : replies.length\n\
    ? (replies.some(r => r.item === ui.item) ? '\\u25b2' : '\\u00b7') : halt ? '\\u25a0' : '';\n\
    return tile(e && e.state, star ? 'current' : '', title)\n\
    + `<div class=\"marks\">${sign}</div><div class=\"nr\">${leaf}</div>`;\n}\n\
    const before = entryBefore(leaf, ui.item);\n\
    const old = before && before.words.length ? before.words : before === null || before ? [] : null;\n\
    const replyChips = replies.length ? chips(replies, 'leafreplies ' + leaf, 2, mode !== 'big') : '';\n\
    const sends = (slot || replies.length ? '<span>\\u25b2</span>' : '') + slotChip + replyChips;\n\
    const words = e && e.words.length ? wordTexts(e.words, old, mode === 'big' ? wide > 17 ? 4 : 2 : 1) \
    : '';\nconst where = !e || wide < 15 ? '' : e.way >= 0 ? 'way ' + e.way : 'buffer ' + e.place;\n\
    const reserved = machine.value('reserved ' + leaf);\nconst flag = reserved === '' ? ''\n: `<span \
    title=\"reserves ${escapeText(itemName(Number(reserved)))}\">\\u2691${mode === 'big' && wide > 19\n\
    ? ' ' + escapeText(itemName(Number(reserved))) : ''}</span>`;\nconst head = mode === 'big'\n? `<div \
    class=\"head\"><b>leaf ${leaf}</b><span>${where}</span>${flag}<span \
    class=\"fill\"></span>${sends}</div>`\n\
    : `<div class=\"sends\">${sends}</div><div class=\"head\"><b>leaf ${leaf}</b>${flag}</div>`;\n\
    const minis = ui.active.filter(x => x !== ui.item)\n.slice(0, mode === 'big' ? Math.max(1, \
    Math.floor(wide / 5.2)) : Math.max(1, Math.floor(wide / 2))).map(x => {\n\
    const other = machine.entry(leaf, x);\n\
    return `<span class=\"mini\" data-item=\"${x}\" title=\"${escapeText(itemName(x))}: choose`\n\
    + ` it\">${tile(other && other.state)}${mode === 'big' ? escapeText(itemName(x)) : ''}</span>`;\n\
    }).join('');\nconst pc = machine.pc(leaf);\nconst waits = halt ? undefined\n: ui.active.find(x => { \
    const other = machine.entry(leaf, x); return other && other.words.length === 0\n\
    || other && other.state === 'W'; });\n\
    const state = halt ? `<b>${escapeText(halt)}</b>` : waits !== undefined && wide < 21\n\
    ? `<b>waits for ${escapeText(itemName(waits))}</b>`\n: `<b>hart ${leaf}${waits === undefined ? ''\n\
    : ` waits for ${escapeText(itemName(waits))}`}</b> ${escapeText(instructionAt(pc))}`;\n\
    const shortState = halt ? `<b>${escapeText(halt)}</b>`\n\
    : escapeText(instructionAt(pc).split(' ')[0]) + (waits === undefined ? '' : ' <b>waits</b>');\n\
    return head + `<div class=\"row\">${tile(e && e.state, 'big ' + (star ? 'current' : ''), title)}`\n\
    + `<div class=\"words\">${words}${mode === 'big'\n\
    ? `<div class=\"says\">${STATES_SHORT[e ? e.state : '-']}</div>` : ''}</div></div>`\n+ `<div \
    class=\"minis\">${minis}</div><div class=\"instr mono\">${mode === 'big' ? state : \
    shortState}</div>`;\n}\nfunction drawPicture() {\nconst turn = film.turns[machine.at];\n\
    for (const b of picture.boxes) {\nconst now = turn && (turn.kind === 'h' ? b.about.leaf === \
    turn.hart : b.about.bus === turn.bus && false);\nconst html = b.fill();\n\
    if (html !== b.shown) { b.box.innerHTML = html; b.shown = html; }\n\
    b.box.classList.toggle('now', !!now);\n\
    b.box.classList.toggle('chosen', b.about.leaf !== undefined ? ui.place.leaf === b.about.leaf\n\
    : ui.place.bus === b.about.bus);\n\
    const e = b.about.leaf !== undefined ? machine.entry(b.about.leaf, ui.item) : null;\n\
    b.box.setAttribute('aria-label', b.about.leaf !== undefined\n\
    ? `leaf ${b.about.leaf}, ${itemName(ui.item)}: ${e ? STATE_WORDS[e.state] : 'nothing'}`\n\
    : `${parentName(b.about.bus)}, bus ${b.about.bus}`);\n}\nfilm.buses.forEach(({bus}) => {\n\
    const on = turn && turn.kind !== 'h' && turn.bus === bus;\n\
    picture.bar[bus].line.setAttribute('class', 'bar'\n+ (on && turn.answer[0] === 'granted' ? ' now' : \
    on && turn.answer[0] === 'busy' ? ' busy' : on ? ' now'\n: ''));\n\
    const label = picture.labels[bus];\nif (label) {\n\
    label.innerHTML = `<b>bus ${bus}</b>${picture.mode === 'small' ? ''\n\
    : ' moment'} ${machine.value('time ' + bus)}${picture.mode === 'big' ? behind(bus) : ''}`;\n\
    keepInside(label);\n}\n});\nconst {address} = film.items[ui.item];\n\
    $('#caption').innerHTML = `<b>${escapeText(itemName(ui.item))}</b> `\n\
    + `<span class=\"mono\">${address.toString(16)}</span><br>\\u2605 its current copy`;\n\
    drawMoves(turn);\n}\nfunction keepInside(label) {\nlabel.style.marginLeft = 0;\n\
    const over = label.offsetLeft + label.offsetWidth - picture.width;\n\
    if (over > 0) label.style.marginLeft = -over + 'px';\n}\nfunction behind(bus) {\n\
    if (bus === 0) return '';\n\
    const above = film.buses[bus].parent, last = text => Number(text.split('.').pop());\nconst n = \
    last(machine.value('time ' + above)) - last(machine.value('time ' + bus).replace(/\\.\\d+$/, ''));\n\
    return n > 0 ? `<span title=\"grants of bus ${above} that this bus hasn\\u2019t heard of\">, ${n} \
    behind bus`\n+ ` ${above}</span>` : '';\n}\nfunction drawMoves(turn) {\n\
    const moves = document.querySelector('#moves');\nmoves.replaceChildren();\npicture.paths = [];\n\
    if (!turn || turn.kind === 'h' || turn.answer[0] !== 'granted') return;\n\
    const a = turn.answer, kind = a[1], bus = turn.bus, bar = picture.bar[bus];\n\
    const kidAt = child => {\nconst kid = film.buses[bus].kids[child];\n\
    return kid.leaf !== undefined ? picture.leaf[kid.leaf] : picture.dir[kid.bus];\n};\n\
    const parent = picture.dir[bus];\n\
    const source = a[a.indexOf('from') + 1], to = a.indexOf('to'), taker = a[to + 1];\nconst start = \
    source === 'child' ? [kidAt(turn.child).x, kidAt(turn.child).top] : [parent.x, parent.bottom];\n\
    const ends = taker === 'child' ? [Number(a[to + 2])].map(c => [kidAt(c).x, kidAt(c).top])\n\
    : taker === 'all' || taker === 'readers' ? takers(turn).map(c => [kidAt(c).x, kidAt(c).top])\n\
    : taker === 'gone' ? [] : [[parent.x, parent.bottom]];\n\
    if (source === 'parent' && taker === 'parking') return;\nconst draw = (from, end) => {\nconst d = \
    end ? `M ${from[0]} ${from[1]} L ${from[0]} ${bar.y} L ${end[0]} ${bar.y} L ${end[0]} ${end[1]}`\n\
    : `M ${from[0]} ${from[1]} L ${from[0]} ${bar.y}`;\nmoves.append(svg('path', {class: 'halo', d}));\n\
    const path = svg('path', {class: kind, d});\nmoves.append(path);\nif (end) {\n";

const BACK_3: &[u8] = b"\
    const tip = end[1] > bar.y ? 1 : -1, w = Math.max(5, picture.em * .42);\n\
    moves.append(svg('polygon',\n\
    {class: kind, points: `${end[0]},${end[1]} ${end[0] - w},${end[1] - tip * w * 1.7} ${end[0]\n\
    + w},${end[1] - tip * w * 1.7}`}));\npath.setAttribute('d', `M ${from[0]} ${from[1]} L ${from[0]} \
    ${bar.y} L ${end[0]} ${bar.y} L ${end[0]}`\n+ ` ${end[1] - tip * w * 1.6}`);\n}\n\
    picture.paths.push({path, kind});\n};\n\
    if (ends.length === 0) draw(start, null); else ends.forEach(end => draw(start, end));\n}\n\
    let tokens = 0;\nfunction animateMoves(duration) {\n\
    const moves = document.querySelector('#moves'), mine = ++tokens;\n\
    if (!picture.paths || matchMedia('(prefers-reduced-motion: reduce)').matches) return;\n\
    const all = picture.paths.map(({path, kind}) => {\nconst g = svg('g', {class: 'token ' + kind});\n\
    g.append(svg('circle', {r: Math.max(7, picture.em * .55)}));\nmoves.append(g);\n\
    return {g, path, length: path.getTotalLength()};\n});\nif (!all.length) return;\n\
    const begin = performance.now();\nconst step = now => {\nif (mine !== tokens) return;\n\
    const part = Math.min(1, (now - begin) / duration);\n\
    const eased = part < .5 ? 2 * part * part : 1 - (2 - 2 * part) ** 2 / 2;\n\
    for (const {g, path, length} of all) {\nconst p = path.getPointAtLength(eased * length);\n\
    g.setAttribute('transform', `translate(${p.x},${p.y})`);\n}\n\
    if (part < 1) requestAnimationFrame(step); else all.forEach(({g}) => g.remove());\n};\n\
    step(begin);\n}\nfunction stateRuns() {\nconst item = ui.item, places = film.turns.length;\n\
    const walk = new Machine(film);\n\
    const leafState = leaf => { const e = walk.entry(leaf, item); return e ? e.state : '-'; };\n\
    const busState = bus => {\nconst d = walk.dir(bus, item);\nconst down = walk.value('down ' + bus) \
    === '' ? [] : walk.downList(bus).filter(e => e.item === item);\n\
    if (down.some(e => e.kind === 'erase')) return 'erase';\nif (down.length) return down[0].kind;\n\
    return d.note || d.answering ? 'note' : '-';\n};\n\
    const runs = {leaf: film.leaves.map(({leaf}) => [[-1, leafState(leaf)]]),\n\
    bus: film.buses.map(({bus}) => [[-1, busState(bus)]])};\nconst about = film.keys.map(key => {\n\
    const w = key.split(' ');\n\
    if (w[0] === 'entry') return Number(w[2]) === item ? ['leaf', Number(w[1])] : null;\n\
    if (w[0] === 'buffer') return ['leaf', Number(w[1])];\n\
    if (w[0] === 'dir') return Number(w[2]) === item ? ['bus', Number(w[1])] : null;\n\
    if (w[0] === 'down') return ['bus', Number(w[1])];\nreturn null;\n});\n\
    for (let n = 0; n < places; n++) {\nconst c = film.turns[n].changes;\nif (!c.length) continue;\n\
    walk.moveTo(n);\nfor (let k = 0; k < c.length; k += 3) {\nconst at = about[c[k]];\n\
    if (!at) continue;\n\
    const run = runs[at[0]][at[1]], state = at[0] === 'leaf' ? leafState(at[1]) : busState(at[1]);\n\
    if (run[run.length - 1][1] !== state) run.push([n, state]);\n}\n}\nreturn runs;\n}\n\
    const lanes = {zoom: 0, first: 0};\n\
    const AXIS = 13;        // px of the row of numbers above the lanes\nfunction laneColors() {\n\
    const style = getComputedStyle(document.documentElement), colors = {};\nfor (const name of ['ink', \
    'soft', 'line', 'faint', 'panel', 'blue', 'orange', 'red', 'pink', 'grey', 'mark']) {\n\
    colors[name] = style.getPropertyValue('--' + name).trim();\n}\nreturn colors;\n}\n\
    function laneGeometry() {\n\
    const canvas = document.querySelector('#lanecanvas'), box = document.querySelector('#lanebox');\n\
    const count = film.leaves.length + film.buses.length, label = 58;\nconst width = box.clientWidth;\n\
    const most = Math.round(innerHeight * (document.body.classList.contains('tall') ? .52 : .23));\n\
    const lane = Math.max(count > 40 ? 5 : 8, Math.min(22, Math.floor((most - AXIS - 4) / count)));\n\
    const total = ui.sequence.length, w = width - label - 6;\n\
    const fit = w / Math.max(1, total), px = lanes.zoom === 0 ? fit : Math.max(fit, lanes.zoom);\n\
    const visible = Math.min(total, Math.ceil(w / px));\n\
    return {canvas, box, count, label, width, lane, total, w, px, visible};\n}\nfunction sizeLanes() {\n\
    const g = laneGeometry();\ng.canvas.style.height = g.count * g.lane + AXIS + 2 + 'px';\n}\n\
    function laneFirst(g) {\nif (g.visible >= g.total) return 0;\nconst at = ui.position - 1;\n\
    let first = lanes.first;\nif (at < first + g.visible * .15 || at > first + g.visible * .8) first = \
    Math.round(at - g.visible * .45);\nreturn Math.max(0, Math.min(g.total - g.visible, first));\n}\n\
    function drawLanes() {\nconst g = laneGeometry(), {canvas, label, lane, px} = g;\nif (g.width === \
    0) { lanes.density = null; drawDensity(laneColors()); return; }      // the lanes are hidden\n\
    lanes.first = laneFirst(g);\n\
    const ratio = devicePixelRatio || 1, height = g.count * lane + AXIS + 2;\n\
    const colors = laneColors();\nconst same = [ui.item, ui.shown, g.total, px, lanes.first, g.width, \
    lane, ratio, colors.ink].join();\nif (lanes.same !== same || lanes.film !== film) {\n\
    lanes.kept = document.createElement('canvas');\n\
    lanes.kept.width = Math.round(g.width * ratio); lanes.kept.height = Math.round(height * ratio);\n\
    paintLanes(lanes.kept.getContext('2d'), g, colors, ratio);\n\
    lanes.same = same; lanes.film = film; lanes.density = null;\n}\n\
    canvas.style.height = height + 'px';\n\
    canvas.width = lanes.kept.width; canvas.height = lanes.kept.height;\n\
    const c = canvas.getContext('2d');\nc.drawImage(lanes.kept, 0, 0);\nc.scale(ratio, ratio);\n\
    if (ui.position > 0) {\nconst cx = label + (ui.position - 1 - lanes.first) * px + px / 2;\n\
    const text = String(film.turns[machine.at].number);\n\
    c.font = 'bold 11px system-ui, sans-serif'; c.textAlign = 'center'; c.textBaseline = 'middle';\n\
    const half = c.measureText(text).width / 2 + 4, mid = Math.max(label + half, Math.min(label + g.w - \
    half, cx));\nc.fillStyle = colors.ink; c.fillRect(cx - 1, AXIS - 1, 2, height); c.fillRect(mid - \
    half, 0, 2 * half, AXIS);\nc.fillStyle = colors.panel; c.fillText(text, mid, AXIS / 2 + .5);\n}\n\
    const turn = film.turns[machine.at];\nif (turn && height > g.box.clientHeight) {\n\
    const y = (turn.kind === 'h' ? turn.hart : film.leaves.length + turn.bus) * lane + AXIS;\n\
    if (y < g.box.scrollTop || y + lane > g.box.scrollTop + g.box.clientHeight) {\n\
    g.box.scrollTop = Math.max(0, y - g.box.clientHeight / 2);\n}\n}\n\
    if (!lanes.density) drawDensity(colors);\n}\nfunction paintLanes(c, g, colors, ratio) {\n\
    const {label, lane, px} = g, first = lanes.first, last = Math.min(g.total, first + g.visible + 1);\n\
    c.scale(ratio, ratio);\nc.font = `${Math.max(9, Math.min(13, lane - 2))}px system-ui, sans-serif`;\n\
    c.textBaseline = 'middle';\nconst seq = ui.sequence;\n\
    const x = place => label + (place - first) * px;\nconst placeOf = turn => {\n\
    let low = 0, high = seq.length;\nwhile (low < high) {\nconst mid = (low + high) >> 1;\n\
    if (seq[mid] < turn) low = mid + 1;\nelse high = mid;\n} return low;\n};\n\
    const row = (index, name, runs, paint) => {\nconst y = index * lane + AXIS;\n\
    c.fillStyle = index % 2 ? colors.panel : colors.faint;\n\
    c.globalAlpha = .6; c.fillRect(label, y, g.w, lane); c.globalAlpha = 1;\n\
    if (lane >= 9 || index % 3 === 0) {\nc.fillStyle = colors.soft;\nc.textAlign = 'right';\n\
    c.fillText(name, label - 6, y + lane / 2);\n}\nfor (let n = 0; n < runs.length; n++) {\n\
    const from = runs[n][0] < 0 ? 0 : placeOf(runs[n][0]);\n\
    const to = n + 1 < runs.length ? placeOf(runs[n + 1][0]) : g.total;\n\
    if (runs[n][1] === '-' || to <= first || from >= last) continue;\n\
    const x1 = Math.max(label, x(from)), x2 = Math.min(label + g.w, Math.max(x(to), x(from) + 1));\n\
    if (x2 > x1) paint(runs[n][1], x1, y, x2 - x1);\n}\n};\nconst pad = lane >= 14 ? 3 : 1;\n\
    const leafPaint = (state, x1, y, w) => {\nconst h = lane - 2 * pad, t = y + pad;\n\
    if (state === 'S' || state === 'W') {\nc.fillStyle = colors.blue;\nc.globalAlpha = .62;\n\
    c.fillRect(x1, t, w, h);\nc.globalAlpha = 1;\n}\nif (state === 'E') {\n\
    c.fillStyle = colors.orange;\nc.globalAlpha = .8;\nc.fillRect(x1, t, w, h);\nc.globalAlpha = 1;\n}\n\
    if (state === 'W' || state === 'B' || state === 'R') {\n\
    c.fillStyle = state === 'R' ? colors.blue : colors.orange;\nconst edge = Math.max(1.5, h * .18);\n\
    for (let k = 0; k < w; k += 5) {\nc.fillRect(x1 + k, t, Math.min(3, w - k), edge);\n\
    c.fillRect(x1 + k, t + h - edge, Math.min(3, w - k), edge);\n}\n}\n\
    const room = 'RWB'.includes(state) ? px / 2 + 7 : 0;      // for the mark of the turn that asked\n\
    if (w > 14 + room && lane >= 12) {\nc.fillStyle = colors.ink;\nc.textAlign = 'left';\n\
    c.fillText(state, x1 + 3 + room, y + lane / 2);\n}\n};\nconst busPaint = (state, x1, y, w) => {\n\
    const h = Math.max(2, lane * .36), t = y + (lane - h) / 2;\n\
    c.fillStyle = {erase: colors.red, note: colors.line, read: colors.blue, data: colors.blue,\n\
    exclusive: colors.orange, inject: colors.pink}[state] || colors.line;\nc.fillRect(x1, t, w, h);\n\
    };\nfilm.leaves.forEach(({leaf}) => row(leaf, 'hart ' + leaf, ui.runs.leaf[leaf], leafPaint));\n\
    film.buses.forEach(({bus}) => row(film.leaves.length + bus, 'bus ' + bus, ui.runs.bus[bus], \
    busPaint));\nconst wide = px >= 3;\nfor (let pass = 0; pass < 2; pass++) {\n\
    for (let k = first; k < last; k++) {\n\
    const turn = film.turns[seq[k]], mine = turn.items.includes(ui.item);\n\
    if (mine !== (pass === 1) || turn.idle) continue;\n\
    const index = turn.kind === 'h' ? turn.hart : film.leaves.length + turn.bus;\n\
    const y = index * lane + AXIS;\nconst mid = y + lane / 2;\nconst cx = x(k) + px / 2;\n\
    const a = turn.answer, r = Math.max(1.6, Math.min(lane * .27, px * .42));\n\
    if (turn.kind === 'h') {\nif (!mine) {\nc.fillStyle = colors.soft;\nc.globalAlpha = .45;\n\
    c.fillRect(cx - .5, y + lane - Math.max(2, lane * .22), 1, Math.max(2, lane * .2));\n\
    c.globalAlpha = 1;\ncontinue;\n}\n\
    c.lineWidth = 1.4; c.strokeStyle = colors.ink; c.fillStyle = colors.ink;\n\
    if (a[0] === 'retired') {\nconst stores = EFFECTS_THAT_STORE.has(a[1]);\n\
    if (turn.op && turn.op.stale) {\nc.fillStyle = colors.red;\nc.beginPath();\n\
    c.moveTo(cx, mid - r * 1.7);\nc.lineTo(cx + r * 1.7, mid);\nc.lineTo(cx, mid + r * 1.7);\n\
    c.lineTo(cx - r * 1.7, mid);\nc.closePath();\nc.fill();\nc.strokeStyle = colors.panel;\n\
    c.stroke();\n}\nelse if (!wide) c.fillRect(cx - .75, y + 2, 1.5, lane - 4);\n\
    else if (stores) c.fillRect(cx - r, mid - r, 2 * r, 2 * r);\n\
    else { c.beginPath(); c.arc(cx, mid, r, 0, 7); c.fillStyle = colors.panel; c.fill(); c.stroke(); }\n\
    } else if (a[0] === 'issued') { c.beginPath();\nc.moveTo(cx - r, mid + r);\n\
    c.lineTo(cx + r, mid + r);\nc.lineTo(cx, mid - r);\nc.closePath();\nc.fill();\n}\n\
    else if (a[0] === 'busy') cross(c, cx, mid, r, colors.red);\n} else if (a[0] === 'granted') {\n\
    c.fillStyle = mine ? {read: colors.blue, data: colors.blue, erase: colors.red, exclusive: \
    colors.orange,\ninject: colors.pink, out: colors.grey}[a[1]] : colors.soft;\n\
    c.globalAlpha = mine ? 1 : .4;\n\
    const w = Math.max(1.5, Math.min(px * .8, 9)), h = mine ? lane - 2 : lane * .5;\n\
    if (mine && a[1] === 'read' && w > 3) {\nc.strokeStyle = colors.blue;\nc.lineWidth = 1.6;\n\
    c.fillStyle = colors.panel;\nc.fillRect(cx - w / 2, y + 1, w, h);\n\
    c.strokeRect(cx - w / 2, y + 1, w, h);\n}\nelse c.fillRect(cx - w / 2, mid - h / 2, w, h);\n\
    c.globalAlpha = 1;\n} else if (a[0] === 'busy') { c.globalAlpha = mine ? 1 : .35;\n\
    cross(c, cx, mid, r, colors.red);\nc.globalAlpha = 1;\n}\n}\n}\n\
    c.font = '10px system-ui, sans-serif'; c.fillStyle = colors.soft; c.textAlign = 'center';\n\
    const every = Math.max(1, Math.ceil(64 / px / 5) * 5);\n\
    for (let k = Math.ceil(first / every) * every; k < last; k += every) {\nconst cx = x(k) + px / 2;\n\
    if (cx < label + 12 || cx > label + g.w - 14) continue;\n\
    c.fillText(String(film.turns[seq[k]].number), cx, AXIS / 2); c.fillRect(cx - .5, AXIS - 2, 1, 2);\n\
    }\n}\nfunction cross(c, x, y, r, color) {\nc.strokeStyle = color; c.lineWidth = 1.5;\n\
    c.beginPath();\nc.moveTo(x - r, y - r);\nc.lineTo(x + r, y + r);\nc.moveTo(x + r, y - r);\n\
    c.lineTo(x - r, y + r);\nc.stroke();\n}\nfunction drawDensity(colors) {\n\
    const canvas = document.querySelector('#density');\nconst ratio = devicePixelRatio || 1;\n\
    const w = canvas.clientWidth;\nconst h = canvas.clientHeight;\n\
    canvas.width = w * ratio; canvas.height = h * ratio;\nconst c = canvas.getContext('2d');\n\
    c.scale(ratio, ratio);\nconst total = ui.sequence.length;\nlanes.density = true;\n\
    if (!total) return;\nconst step = w / (total + 1);\nc.fillStyle = colors.blue;\n\
    ui.sequence.forEach((n, k) => {\nconst turn = film.turns[n];\n\
    if (turn.idle || !turn.items.includes(ui.item)) return;\n\
    c.globalAlpha = .75; c.fillRect((k + 1) * step - .5, h * .25, Math.max(1, step * .7), h * .5);\n\
    });\nc.globalAlpha = 1; c.fillStyle = colors.red;\nui.sequence.forEach((n, k) => {\n\
    const {op} = film.turns[n];\nif (op && op.stale) c.fillRect((k + 1) * step - 1.5, 0, 3, h);\n});\n\
    const g = laneGeometry();\nif (lanes.zoom && g.width > 0) {\nc.strokeStyle = colors.ink;\n\
    c.globalAlpha = .5;\nc.lineWidth = 1.5;\n\
    c.strokeRect((lanes.first + 1) * step, 1, Math.max(4, g.visible * step), h - 2);\n\
    c.globalAlpha = 1;\n}\n}\nfunction laneTurnAt(event) {\n\
    const g = laneGeometry(), r = g.canvas.getBoundingClientRect();\n\
    const k = lanes.first + Math.floor((event.clientX - r.left - g.label) / g.px);\n\
    return k < 0 || k >= g.total || event.clientX - r.left < g.label ? -1 : k;\n}\n\
    function drawCard() {\nconst turn = film.turns[machine.at], card = $('#card');\nif (!turn) {\n\
    card.innerHTML = startText();\nconst go = card.querySelector('#gostale');\n\
    if (go) go.addEventListener('click', () => toStale(1));\nreturn;\n}\n\
    before.moveTo(machine.at - 1);\ncard.innerHTML = turnText(turn);\n\
    const other = card.querySelector('#showother');\n\
    if (other) other.addEventListener('click', () => chooseItem(turn.item));\n\
    for (const button of card.querySelectorAll('[data-turn]')) {\n\
    button.addEventListener('click', () => goTo(Number(button.dataset.turn)));\n}\n\
    const details = card.querySelector('details');\n\
    if (details) details.addEventListener('toggle', () => { ui.details = details.open; });\n}\n\
    function startText() {\n\
    const used = film.items.filter(item => item.granted + item.issued > 0).length;\n\
    const {leaves, buses, items, sizes, stale} = film;\nreturn `<div class=\"when\"><b>Start</b><span \
    class=\"soft\">${film.turns.length} turns follow</span></div>\n<p class=\"answer\">${leaves.length} \
    ${plural(leaves.length, 'processor')} (<b>harts</b>), each on a <b>leaf</b>\n\
    with a memory of its own, joined by ${buses.length} ${plural(buses.length, 'bus', 'buses')}.</p>\n\
    <p class=\"more\">Data have no home here: <b>items</b> of ${sizes.bytes} bytes move to the leaves \
    that use them.\nOf ${items.length} ${plural(items.length, 'item')}, ${used} ${used === 1 ? 'moves' \
    : 'move'} in this run;\nthe picture shows one of them. A <b>directory</b> between two buses keeps \
    what waits to go up or down.</p>\n\
    <p class=\"more\">Each turn lets one hart try an instruction, or one bus move one thing.\n\
    <kbd>\\u2192</kbd> goes on, <kbd>\\u2190</kbd> back, <kbd>?</kbd> tells all keys and signs.</p>`\n+ \
    (stale.length ? `<p class=\"more\">In turn ${stale[0].turn} hart ${stale[0].hart} loads a value \
    that another hart\n\
    has already overwritten. The page shows why, and why one order of one memory still explains it.\n\
    <button id=\"gostale\">Go to turn ${stale[0].turn}</button></p>` : '');\n}\n\
    function turnText(turn) {\n\
    const [sentence, more] = answerWords(turn, before), what = turn.answer[0];\n\
    const paragraphs = [`<div class=\"when\"><b>Turn ${turn.number}</b>`\n\
    + `<span class=\"soft\">of ${film.turns.length}</span>`\n\
    + `<span class=\"badge ${what}\" title=\"${ANSWER_WORDS[what]}\">${what}</span></div>`];\n\
    paragraphs.push(`<div class=\"tries\">${escapeText(turnWords(turn))}${triedText(turn)}</div>`);\n\
    paragraphs.push(`<div class=\"answer\">${escapeText(sentence)}</div>`);\n\
    if (more) paragraphs.push(`<div class=\"more\">${escapeText(more)}</div>`);\n\
    if (turn.item >= 0 && turn.item !== ui.item) {\n\
    const [shown, about] = [itemName(ui.item), itemName(turn.item)].map(escapeText);\n\
    paragraphs.push(`<div class=\"more\">The picture shows ${shown}. `\n\
    + `<button id=\"showother\">Show ${about}</button></div>`);\n}\nif (turn.op && turn.op.stale) {\n\
    paragraphs.push(staleText(turn.op));\n} else if (turn.op) {\n\
    paragraphs.push(`<div class=\"more\">Its place in the one order is its key, `\n\
    + `<span class=\"mono\">${turn.op.key}</span>.</div>`);\n}\nparagraphs.push(`<div class=\"raw \
    mono\" title=\"the line of the trace\">${escapeText(turn.text)}</div>`,\nchangesText(turn));\n\
    return paragraphs.join('');\n}\nfunction staleText(op) {\n\
    const [happened, how, why] = staleWords(op).map(escapeText), loses = losesCopy(op);\n\
    const ways = [[op.stale.turn, 'the store']];\n";

const BACK_4: &[u8] = b"\
    if (loses) ways.push([loses.number, `leaf ${op.hart} lose its copy`]);\nconst buttons = \
    ways.map(([turn, what]) => `<button data-turn=\"${turn}\">${what} (turn ${turn})</button>`);\n\
    return `<div class=\"stale\"><b>${happened}</b><br>${how}<br>${why}<br>See ${buttons.join(' \
    ')}</div>`;\n}\nconst ANSWER_WORDS = {\nretired: 'an instruction was completed',\n\
    granted: 'a bus moved something',\nissued: 'a hart has to wait, and its leaf asks',\n\
    waiting: 'a hart still waits',\nhalted: 'a hart has ended',\nempty: 'nothing to do',\n\
    busy: 'not possible now: nothing changed',\n};\nfunction triedText(turn) {\n\
    if (turn.kind !== 'h' || before.halt(turn.hart)) return '';\nconst pc = before.pc(turn.hart);\n\
    return `: <code title=\"at ${hex(pc)}\">${escapeText(instructionAt(pc))}</code>`\n\
    + ` <span class=\"soft mono\">at&nbsp;${escapeText(addressName(pc))}</span>`;\n}\n\
    function changesText(turn) {\nconst lines = [];\n\
    for (let k = 0; k < turn.changes.length; k += 3) {\nconst [key, old, now] = \
    [film.keys[turn.changes[k]], turn.changes[k + 1] || '\\u2013', turn.changes[k + 2] || '\\u2013'];\n\
    lines.push(`<div class=\"mono\"><b>${key}</b>: ${escapeText(old)} \\u2192 \
    ${escapeText(now)}</div>`);\n}\nif (!lines.length) return '';\n\
    return `<details${ui.details ? ' open' : ''}>`\n\
    + `<summary>${lines.length} ${plural(lines.length, 'part')} of the machine changed</summary>`\n\
    + `<div>${lines.join('')}</div></details>`;\n}\nconst PANES = {order: drawOrder, place: drawPlace, \
    program: drawProgram, items: drawItems, traffic: drawTraffic};\nfunction drawPane() {\n\
    const pane = document.querySelector('#pane');\ndocument.querySelectorAll('#tabs [role=\"tab\"]')\n\
    .forEach(tab => tab.setAttribute('aria-selected', String(tab.dataset.tab === ui.tab)));\n\
    PANES[ui.tab](pane);\n}\nfunction show(pane, html) {\n\
    if (pane.dataset.tab !== ui.tab || pane.shown !== html) {\n\
    const top = pane.dataset.tab === ui.tab ? pane.scrollTop : 0;\npane.innerHTML = html;\n\
    pane.shown = html;\npane.dataset.tab = ui.tab;\npane.scrollTop = top;\n}\n}\n\
    function effectWords(op) {\nconst [what, address, a, b] = op.effect;\n\
    const at = address && what !== 'put' ? addressName(parseInt(address, 16)) : '';\nswitch (what) {\n\
    case 'plain': return instructionAt(op.pc);\ncase 'put': return `put ${address}`;\n\
    case 'load': return `load ${at} = ${shortWord(a)}`;\n\
    case 'lr': return `lr ${at} = ${shortWord(a)}`;\ncase 'scfail': return `sc ${at} failed`;\ndefault: \
    return `${{store: 'store', scok: 'sc', amo: 'amo'}[what]} ${at}: ${shortWord(a)} \\u2192 \
    ${shortWord(b)}`;\n}\n}\nfunction drawOrder(pane) {\nif (pane.dataset.tab !== 'order') {\n\
    pane.innerHTML = `<div id=\"order\"><div id=\"orderhead\"><label>`\n\
    + `<input type=\"checkbox\" id=\"onlymemory\"> memory only</label><label>`\n\
    + `<input type=\"checkbox\" id=\"onlyitem\"> chosen item only</label>`\n\
    + `<span class=\"soft\" id=\"ordercount\"></span></div><div id=\"orderbody\"></div></div>`;\n\
    pane.dataset.tab = 'order'; pane.shown = null;\n\
    for (const [id, name] of [['onlymemory', 'onlyMemory'], ['onlyitem', 'onlyItem']]) {\n\
    const box = pane.querySelector('#' + id);\nbox.checked = ui[name];\n\
    box.addEventListener('change', () => { ui[name] = box.checked; drawOrder(pane); });\n}\n}\n\
    const body = pane.querySelector('#orderbody');\n\
    const em = parseFloat(getComputedStyle(pane).fontSize), rowHeight = 1.75 * em, head = 1.3 * em;\n\
    const width = body.clientWidth, rows = Math.max(3, Math.floor((body.clientHeight - head) / \
    rowHeight));\nconst count = machine.at < 0 ? 0 : film.opsUpTo[machine.at];\n\
    const fits = op => (!ui.onlyMemory || op.item >= 0) && (!ui.onlyItem || op.item === ui.item);\n\
    const time = [];\nfor (let k = 0; k < count; k++) if (fits(film.ops[k])) time.push(film.ops[k]);\n\
    const order = time.slice().sort((a, b) => a.rank - b.rank);\n\
    pane.querySelector('#ordercount').textContent = `${time.length} of ${count} completed \
    instructions`;\nbody.replaceChildren();\nif (!time.length) {\n\
    body.append(el('p', {class: 'soft'}, 'No instruction of this kind is complete yet.'));\nreturn;\n}\n\
    const newest = time[time.length - 1];\nconst placeInOrder = order.indexOf(newest);\n\
    const timeFirst = Math.max(0, time.length - rows);\nconst orderFirst = Math.max(0, \
    Math.min(order.length - rows, placeInOrder - Math.floor(rows / 2)));\nconst timeWidth = 3.9 * em, \
    gutter = Math.min(5 * em, width * .16), orderLeft = timeWidth + gutter;\n\
    const caption = (left, text) => {\nconst e = el('div', {class: 'caption'}, text);\n\
    e.style.left = left + 'px';\nbody.append(e);\n};\n\
    caption(0, 'by turn'); caption(orderLeft, 'in the one order (by key)');\n\
    const y = row => head + row * rowHeight;\n\
    const links = svg('svg', {width, height: body.clientHeight, 'aria-hidden': 'true'});\n\
    links.style.clipPath = `inset(${head}px -9px 0 -9px)`;\nbody.append(links);\nconst inTime = new \
    Map(time.map((op, k) => [op, k])), inOrder = new Map(order.map((op, k) => [op, k]));\n\
    const shown = new Set([...time.slice(timeFirst, timeFirst + rows),\n\
    ...order.slice(orderFirst, orderFirst + rows)]);\nfor (const op of shown) {\n\
    const a = inTime.get(op) - timeFirst, b = inOrder.get(op) - orderFirst;\n\
    const clamp = n => Math.max(-1.2, Math.min(rows + .2, n));\n\
    const y1 = y(clamp(a) + .5), y2 = y(clamp(b) + .5), x1 = timeWidth, x2 = orderLeft - 3;\n\
    links.append(svg('path',\n\
    {class: 'link' + (op.stale ? ' late' : '') + (op === newest ? ' newest' : ''),\n\
    d: `M ${x1} ${y1} C ${x1 + gutter * .5} ${y1}, ${x2 - gutter * .5} ${y2}, ${x2} ${y2}`}));\n}\n\
    time.slice(timeFirst, timeFirst + rows).forEach((op, k) => {\nconst e = el('button', {class: 'opt'\n\
    + (op !== newest ? '' : op.turn === machine.at ? ' newest' : ' recent'), title: 'go to turn ' + \
    op.turn,\nonclick: () => goTo(op.turn)}, String(op.turn));\nObject.assign(e.style, {left: 0, top: \
    y(k) + 'px', width: timeWidth - 4 + 'px', height: rowHeight - 3 + 'px'});\nbody.append(e);\n});\n\
    order.slice(orderFirst, orderFirst + rows).forEach((op, k) => {\n\
    const e = el('button', {class: 'opo' + (op.item === ui.item ? ' mine' : '')\n+ (op !== newest ? '' \
    : op.turn === machine.at ? ' newest' : ' recent') + (op.stale ? ' stale' : ''),\n\
    title: op.line + '\\nturn ' + op.turn, onclick: () => goTo(op.turn)},\nel('span', {class: 'who'}, \
    `hart ${op.hart}`), el('span', {class: 'what'}, effectWords(op)), op.stale\n\
    ? el('span', {class: 'flag'}, 'stale') : null,\nel('span', {class: 'key mono'}, op.key));\n\
    Object.assign(e.style, {left: orderLeft + 'px', top: y(k) + 'px', width: width - orderLeft + 'px',\n\
    height: rowHeight - 3 + 'px'});\nbody.append(e);\n});\n}\nfunction drawPlace(pane) {\n\
    const {leaf, bus} = ui.place;\nshow(pane, leaf !== undefined ? leafText(leaf) : busText(bus));\n}\n\
    function entryRow(item, state, where, words) {\n\
    return `<tr class=\"go${item === ui.item ? ' chosen' : ''}\" data-item=\"${item}\">`\n\
    + `<td>${escapeText(itemName(item))}</td><td>${tile(state)}</td><td class=\"soft\">${where}</td>`\n\
    + `<td class=\"mono\">${words.join(' ')}</td></tr>`;\n}\nfunction leafText(leaf) {\n\
    const halt = machine.halt(leaf), turn = film.turns[machine.at], fresh = new Set();\n\
    if (turn) for (let k = 0; k < turn.changes.length; k += 3) fresh.add(film.keys[turn.changes[k]]);\n\
    let html = `<h2>Leaf ${leaf}, hart ${leaf}</h2>`\n\
    + `<p>${halt ? 'Halted: ' + escapeText(halt) : 'Running'}; next at `\n\
    + `<span class=\"mono\">${machine.value('pc ' + leaf)}</span>: `\n+ \
    `<code>${escapeText(instructionAt(machine.pc(leaf)))}</code>; ${machine.done(leaf)} instructions`\n\
    + ` complete.</p>`;\nconst slot = machine.slot(leaf);\n\
    const reserved = machine.value('reserved ' + leaf);\n\
    const replies = machine.copies('leafreplies ' + leaf, 'data');\nhtml += `<p>Slot: ${slot ? \
    chip({...slot, words: []}) : '<span class=\"soft\">empty</span>'}${reserved !== ''\n\
    ? `; reserves ${escapeText(itemName(Number(reserved)))}` : ''}; replies: ${replies.length\n\
    ? replies.map(r => chip(r)).join(' ')\n\
    : '<span class=\"soft\">none</span>'}; moment <span class=\"mono\">${machine.value('time '\n\
    + film.leaves[leaf].bus)}</span> of bus ${film.leaves[leaf].bus}</p>`;\nhtml += '<h2>Attraction \
    memory</h2><table><tr><th>item</th><th>state</th><th></th><th>words</th></tr>';\n\
    for (const [item] of machine.list('buffer ' + leaf)) {\n\
    const e = machine.entry(leaf, Number(item));\n\
    html += entryRow(Number(item), e.state, 'buffer ' + e.place, e.words);\n}\nconst own = \
    film.items.map(({number}) => number).filter(x => machine.value(`entry ${leaf} ${x}`) !== '');\n\
    own.sort((x, y) => (moves(y) - moves(x)) || x - y);\nfor (const x of own.slice(0, 300)) {\n\
    const e = machine.entry(leaf, x);\nhtml += entryRow(x, e.state, 'way ' + e.way, e.words);\n}\n\
    html += '</table><h2>Registers</h2><div class=\"regs\">';\nfor (let r = 1; r < 32; r++) {\nhtml += \
    `<span class=\"${fresh.has(`reg ${leaf} ${r}`) ? 'new' : ''}\"><span \
    class=\"soft\">${ABI[r]}</span> `\n\
    + `<span class=\"mono\" title=\"x${r}\">${machine.register(leaf, r)}</span></span>`;\n}\n\
    const out = machine.output(leaf);\n\
    html += `</div><p>Output: <span class=\"mono\">${out || '-'}</span></p>`;\nreturn html;\n}\n\
    const moves = x => film.items[x].granted + film.items[x].issued > 0 ? 1 : 0;\n\
    function busText(bus) {\nconst list = (name, entries, room) =>\n\
    `<p>${name} <span class=\"soft\">${entries.length}/${room}</span>: ${entries.length\n\
    ? entries.map(e => chip(e) + (e.stamp ? ` <span class=\"soft mono\">at ${e.stamp}</span>` : '')\n\
    + (e.words.length ? ` <span class=\"mono\">${e.words.join(' ')}</span>` : '')).join('<br>')\n\
    : '<span class=\"soft\">empty</span>'}</p>`;\nconst s = film.sizes;\n\
    let html = `<h2>${cap(parentName(bus))}, over bus ${bus}</h2><p>The bus is at moment `\n\
    + `<span class=\"mono\">${machine.value('time ' + bus)}</span>${bus\n\
    ? ': what it took over from the buses above, and its own grants' : ': its grants'}.</p>`;\n\
    html += list('Down list', machine.downList(bus), s.down);\nif (bus) {\n\
    html += list('Requests', machine.requests(bus), s.requests)\n\
    + list('Replies', machine.copies('replies ' + bus, 'data'), s.replies)\n\
    + list(`Parked (${machine.value('kept ' + bus) || 0} places kept)`,\n\
    machine.copies('parked ' + bus, 'parked'), s.parking);\n}\n\
    html += `<h2>Items</h2><table><tr><th>item</th><th>holds</th><th>under way</th></tr>`;\n\
    const known = film.items.map(({number}) => number)\n.filter(x => { const v = machine.value(`dir \
    ${bus} ${x}`); return v !== '' && (bus !== 0 || v !== 'E'); });\n\
    known.sort((x, y) => (moves(y) - moves(x)) || x - y);\nfor (const x of known.slice(0, 300)) {\n\
    const d = machine.dir(bus, x);\n\
    html += `<tr class=\"go${x === ui.item ? ' chosen' : ''}\" data-item=\"${x}\">`\n\
    + `<td>${escapeText(itemName(x))}</td><td>${tile(d.hold)}</td>`\n\
    + `<td>${noteWords(bus, d) || '<span class=\"soft\">nothing</span>'}</td></tr>`;\n}\n\
    return html + '</table>';\n}\n\
    const BEFORE_PC = 14, BEHIND_PC = 20;      // how many instructions are shown\n\
    function drawProgram(pane) {\nconst turn = film.turns[machine.at], tries = turn && turn.kind === \
    'h', hart = tries ? turn.hart : ui.hart;\nbefore.moveTo(machine.at - 1);\n\
    const pc = tries ? before.pc(hart) : machine.pc(hart), next = nextHarts(), rows = [];\n\
    for (let address = pc - 4 * BEFORE_PC; address <= pc + 4 * BEHIND_PC; address += 4) {\n\
    const word = address < 0 ? null : codeWord(address);\nif (word !== null) \
    rows.push(instructionRow(address, word, address === pc, next.get(address) || []));\n}\n\
    show(pane, `<h2>Hart ${hart}: ${tries ? 'what this turn tries' : 'its next instruction'}</h2>`\n\
    + '<table class=\"listing\"><tr><th>address</th><th>instruction</th><th>next here</th></tr>'\n\
    + `${rows.join('')}</table><p class=\"soft\">Words of the image, spelled by this page.</p>`);\n\
    const here = pane.querySelector('.here');\nif (here) here.scrollIntoView({block: 'nearest'});\n}\n\
    function nextHarts() {\nconst harts = new Map();\nfor (const {leaf} of film.leaves) {\n\
    if (machine.halt(leaf)) continue;\nconst at = machine.pc(leaf);\n\
    harts.set(at, (harts.get(at) || []).concat(leaf));\n}\nreturn harts;\n}\n\
    function instructionRow(address, word, isHere, harts) {\n\
    const name = nameOf(address), label = name ? `<b>${escapeText(name)}:</b> ` : '';\n\
    const who = harts.length ? `${plural(harts.length, 'hart')} ${numberWords(harts)}` : '';\n\
    return `<tr class=\"${isHere ? 'here' : ''}\"><td class=\"mono\">${hex(address)}</td>`\n+ `<td \
    class=\"mono\">${label}${escapeText(disassemble(word | 0, address))}</td><td>${who}</td></tr>`;\n}\n\
    function drawItems(pane) {\n\
    const leaves = film.leaves.length, most = Math.max(30, Math.min(200, Math.floor(4000 / leaves)));\n\
    const shown = ui.byMoves.slice(0, most), rest = ui.byMoves.length - shown.length;\n\
    show(pane, '<p class=\"soft\">Those that moved most come first. A star is the current copy.</p>'\n\
    + `<table class=\"matrix${leaves > 16 ? ' many' : ''}\"><tr><th>item</th><th>address</th>`\n+ \
    `<th>at leaf ${leaves > 1 ? '0 to ' + (leaves - 1) : \
    0}</th></tr>${shown.map(itemRow).join('')}</table>`\n\
    + (rest ? `<p class=\"soft\">And ${rest} more.</p>` : ''));\n}\nfunction itemRow(x) {\n\
    const copy = machine.current(x);\nconst tiles = film.leaves.map(({leaf}) => {\n\
    const entry = machine.entry(leaf, x);\n\
    return tile(entry && entry.state, copy.leaf === leaf ? 'current' : '', 'leaf ' + leaf);\n});\n\
    const list = copy.list === 'down' ? 'in the down list' : 'parked';\nconst away = copy.bus === \
    undefined ? '' : ` <span class=\"soft\">\\u2605 ${list} at bus ${copy.bus}</span>`;\nreturn `<tr \
    class=\"go${x === ui.item ? ' chosen' : ''}\" \
    data-item=\"${x}\"><td>${escapeText(itemName(x))}</td>`\n\
    + `<td class=\"mono\">${hex(film.items[x].address)}</td><td>${tiles.join('')}${away}</td></tr>`;\n\
    }\nconst granted = traffic => KINDS.reduce((sum, kind) => sum + traffic[kind], 0);\n\
    const trafficWords = traffic =>\nKINDS.filter(kind => traffic[kind]).map(kind => `${kind} \
    ${traffic[kind]}`).join(', ') || 'nothing';\nfunction drawTraffic(pane) {\n\
    const now = machine.traffic(), all = ui.traffic, most = Math.max(1, ...all.map(granted));\nconst \
    legend = KINDS.map(kind => `<span class=\"sw\"><i class=\"${kind}\"></i> \
    ${kind}</span>`).join('');\nconst bars = now.map((traffic, bus) => `<b>bus ${bus}</b>`\n\
    + `<div class=\"track\" role=\"img\" aria-label=\"bus ${bus}: ${trafficWords(traffic)}\">`\n\
    + barText(all[bus], most, 'all') + barText(traffic, most, 'now') + '</div>'\n+ `<span \
    title=\"${trafficWords(traffic)}\">${granted(traffic)} <span class=\"soft\">of \
    ${granted(all[bus])}</span></span>`);\n\
    const rows = now.map((traffic, bus) => `<tr><td>${bus}</td>`\n+ KINDS.map(kind => \
    `<td>${traffic[kind]}<span class=\"soft\">/${all[bus][kind]}</span></td>`).join('') + '</tr>');\n\
    show(pane, '<p class=\"soft\">What each bus has granted so far; pale, in the whole run.</p>'\n\
    + `<p class=\"kinds\">${legend}</p><div class=\"bars\">${bars.join('')}</div>`\n+ \
    `<table><tr><th>bus</th>${KINDS.map(kind => \
    `<th>${kind}</th>`).join('')}</tr>${rows.join('')}</table>`);\n}\n\
    function barText(traffic, most, name) {\nconst pieces = KINDS.filter(kind => traffic[kind])\n\
    .map(kind => `<i class=\"${kind}\" style=\"flex:${traffic[kind]}\" title=\"${kind} \
    ${traffic[kind]}\"></i>`);\nreturn `<div class=\"${name}\" style=\"width:${100 * granted(traffic) / \
    most}%\">${pieces.join('')}</div>`;\n}\nlet film, machine, before, startMachine;\nconst ui = {item: \
    0, position: 0, sequence: [], shown: 'acts', follow: false, speed: 2, tab: 'order',\nplace: {leaf: \
    0}, hart: 0, bus: 0, onlyMemory: true, onlyItem: false, active: [], byMoves: [], details: false,\n\
    runs: null, traffic: null, playing: 0};\nconst $ = selector => document.querySelector(selector);\n\
    function open(text) {\nfilm = parseFilm(text);\n\
    machine = new Machine(film); before = new Machine(film); startMachine = new Machine(film);\n\
    const last = new Machine(film);\nlast.moveTo(film.turns.length - 1);\nui.traffic = last.traffic();\n\
    ui.active = film.items.filter(x => x.granted + x.issued > 0)\n.sort((x, y) => (y.writable - \
    x.writable) || y.granted + y.issued - x.granted - x.issued).map(x => x.number);\n\
    ui.byMoves = film.items.map(x => x.number)\n\
    .sort((x, y) => (film.items[y].granted - film.items[x].granted) || x - y);\n\
    ui.item = film.stale.length ? film.stale[0].item : ui.active.length ? ui.active[0] : 0;\n\
    ui.hart = 0; ui.bus = 0; ui.place = {leaf: 0};\ncheckEnd(last);\nui.shown = ui.active.length && \
    film.turns.filter(turn => !turn.idle).length > 200 ? 'moves' : 'acts';\nfillChoices();\n\
    readHash();\nlayOut();\nchooseItem(ui.item, true);\n\
    $('#stale').classList.toggle('hidden', film.stale.length === 0);\n";

const BACK_5: &[u8] = b"\
    $('#stale').textContent = `${film.stale.length} stale ${plural(film.stale.length, 'load')} \
    \\u203a`;\ndocument.title = `ddm run: ${film.turns.length} turns, ${film.leaves.length}`\n\
    + ` ${plural(film.leaves.length, 'hart')}`;\ndocument.body.classList.remove('empty');\n\
    $('#drop').classList.add('hidden');\n}\nfunction checkEnd(last) {\n\
    const mine = last.report(), wrong = mine.findIndex((line, n) => line !== film.report[n]);\n\
    const foot = $('#verdict');\n\
    foot.className = wrong < 0 && mine.length === film.report.length ? 'ok' : 'bad';\n\
    foot.textContent = foot.className === 'ok' ? 'in the end this page has what the report says'\n\
    : 'this page differs from the report: ' + film.report[wrong];\n}\nfunction setSequence() {\n\
    const moving = new Set(ui.active);\n\
    const shows = {all: () => true, acts: turn => !turn.idle, item: turn => !turn.idle\n\
    && turn.items.includes(ui.item),\nmoves: turn => !turn.idle\n&& (turn.kind !== 'h' || \
    turn.answer[0] !== 'retired' || turn.items.some(x => moving.has(x)))}[ui.shown];\n\
    ui.sequence = film.turns.filter(shows).map(turn => turn.number);\n\
    ui.position = placeOf(machine.at);\n$('#slider').max = ui.sequence.length;\n}\n\
    function fillChoices() {\nconst list = $('#itemlist');\nlist.replaceChildren();\n\
    const active = new Set(ui.active);\n\
    const order = ui.active.concat(film.items.map(x => x.number).filter(x => !active.has(x)));\n\
    for (const x of order.slice(0, 2000)) list.append(el('option', {value: itemText(x)}));\n\
    const options = (select, count, word) => {\nselect.replaceChildren();\n\
    for (let n = 0; n < count; n++) select.append(el('option', {value: n}, word + ' ' + n));\n};\n\
    options($('#hart'), film.leaves.length, 'hart');\noptions($('#bus'), film.buses.length, 'bus');\n}\n\
    function itemText(x) {\nconst name = itemName(x);\nreturn (name.startsWith('item ') ? '' : name + ' \
    \\u00b7 ') + `item ${x} \\u00b7 ${film.items[x].address.toString(16)}`;\n}\n\
    function findItem(text) {\nconst t = text.trim();\nlet m;\nif (names.size) {\n\
    for (const [address, name] of names) {\n\
    if (name === t.split(' ')[0] && itemAt(film, address) >= 0) return itemAt(film, address);\n}\n}\n\
    if ((m = /(?:^|[\\u00b7 ])item (\\d+)/.exec(t)) && film.items[Number(m[1])]) return Number(m[1]);\n\
    if ((m = /(?:0x)?([0-9a-fA-F]{3,8})$/.exec(t))) {\nconst x = itemAt(film, parseInt(m[1], 16));\n\
    if (x >= 0) return x;\n}\nif (/^\\d+$/.test(t) && film.items[Number(t)]) return Number(t);\n\
    return -1;\n}\nfunction chooseItem(x, force) {\nif (x < 0 || (!force && x === ui.item)) return;\n\
    ui.item = x;\nui.runs = stateRuns();\nif (ui.shown === 'item') setSequence();\n\
    const input = $('#item');\nif (document.activeElement !== input) input.value = itemText(x);\n\
    draw();\n}\nfunction choosePlace(at) {\nui.place = at;\nif (at.leaf !== undefined) {\n\
    ui.hart = at.leaf;\n$('#hart').value = at.leaf;\n\
    } else { ui.bus = at.bus; $('#bus').value = at.bus; }\nui.tab = 'place';\ndraw();\n}\n\
    let told = '';\nfunction say(text) { $('#live').textContent = text; told = text; }\n\
    function draw() {\ndrawPicture();\ndrawCard();\ndrawPane();\ndrawLanes();\n\
    const slider = $('#slider'), turn = film.turns[machine.at];\nslider.value = ui.position;\n\
    slider.setAttribute('aria-valuetext', turn ? `turn ${turn.number}` : 'start');\n\
    if (document.activeElement !== $('#goto')) $('#goto').value = turn ? turn.number : 'start';\n\
    $('#of').textContent = `of ${film.turns.length}`;\nif (!ui.playing && turn) {\n\
    before.moveTo(machine.at - 1);\n\
    say(`Turn ${turn.number}. ${turnWords(turn)}. ${answerWords(turn, before)[0]}`);\n}\n\
    $('#lanetitle').textContent = itemName(ui.item) + ' over time';\nwriteHash();\n}\n\
    function placeOf(turn) {\nlet low = 0, high = ui.sequence.length;\nwhile (low < high) {\n\
    const mid = (low + high) >> 1;\nif (ui.sequence[mid] <= turn) low = mid + 1;\nelse high = mid;\n}\n\
    return low;\n}\nfunction goTo(turn, quick) {\n\
    const to = Math.max(-1, Math.min(film.turns.length - 1, turn));\n\
    const one = to === machine.at + 1 || placeOf(to) === ui.position + 1;\nmachine.moveTo(to);\n\
    ui.position = placeOf(to);\nconst now = film.turns[to];\nif (now) {\n\
    if (now.kind === 'h') ui.hart = now.hart; else ui.bus = now.bus;\n\
    if (ui.follow && now.item >= 0 && now.item !== ui.item) { chooseItem(now.item, true); return; }\nif \
    (ui.follow && ui.tab === 'place') ui.place = now.kind === 'h' ? {leaf: now.hart} : {bus: now.bus};\n\
    }\ndraw();\nif (one && !quick) animateMoves(ui.playing ? Math.min(700, 800 / ui.speed) : 650);\n}\n\
    function step(by) {\nconst p = Math.max(0, Math.min(ui.sequence.length, ui.position + by));\n\
    goTo(p === 0 ? -1 : ui.sequence[p - 1]);\n}\nfunction jump(by, holds) {\n\
    for (let n = machine.at + by; n >= 0 && n < film.turns.length; n += by) {\n\
    if (!film.turns[n].idle && holds(film.turns[n])) {\ngoTo(n);\nreturn true;\n}\n}\n\
    say(by > 0 ? 'There is none after this turn.' : 'There is none before this turn.');\nreturn false;\n\
    }\nfunction toStale(by) {\n\
    if (jump(by, turn => turn.op && turn.op.stale)) chooseItem(film.turns[machine.at].item);\n}\n\
    const ofItem = turn => turn.items.includes(ui.item);\n\
    const ofHart = turn => turn.kind === 'h' && turn.hart === Number($('#hart').value);\n\
    const ofBus = turn => turn.kind !== 'h' && turn.bus === Number($('#bus').value);\n\
    function play(on) {\nclearTimeout(ui.playing);\nui.playing = 0;\n\
    $('#play').textContent = on ? '\\u2759\\u2759 Pause' : '\\u25b6 Play';\n\
    $('#play').setAttribute('aria-pressed', String(on));\nif (!on) return;\n\
    if (ui.position >= ui.sequence.length) goTo(-1, true);\nconst next = () => {\n\
    if (ui.position >= ui.sequence.length) { play(false); return; }\nstep(1);\n\
    ui.playing = setTimeout(next, 1000 / ui.speed);\n};\nui.playing = setTimeout(next, 150);\n}\n\
    let hashTimer = 0;\nfunction writeHash() {\nclearTimeout(hashTimer);\n\
    hashTimer = setTimeout(() => {\nconst parts = [`turn=${machine.at < 0 ? 'start' : machine.at}`, \
    `item=${hex(film.items[ui.item].address)}`,\n`tab=${ui.tab}`, `show=${ui.shown}`];\n\
    if (names.size) {\nparts.push('names=' + [...names].map(([a, n]) => a.toString(16) + ':' + \
    encodeURIComponent(n)).join(','));\n}\ntry {\n\
    history.replaceState(null, '', '#' + parts.join('&'));\n\
    } catch (e) { /* not every browser lets a file do so */ }\n}, 400);\n}\nfunction readHash() {\n\
    const given = new URLSearchParams(location.hash.slice(1));\n\
    if (given.has('names')) for (const pair of given.get('names').split(',')) {\n\
    const k = pair.indexOf(':');\n\
    if (k > 0) names.set(parseInt(pair.slice(0, k), 16), pair.slice(k + 1));\n}\n\
    if (given.has('theme')) setTheme(given.get('theme'));\n\
    if (given.has('tab') && PANES[given.get('tab')]) ui.tab = given.get('tab');\n\
    if (given.has('item')) { const x = findItem(given.get('item')); if (x >= 0) ui.item = x; }\n\
    if (given.has('turn')) {\nconst n = parseInt(given.get('turn'), 10);\n\
    machine.moveTo(isNaN(n) ? -1 : Math.max(-1, Math.min(n, film.turns.length - 1)));\n}\n\
    if (['all', 'acts', 'moves', 'item'].includes(given.get('show'))) ui.shown = given.get('show');\n\
    if (given.has('plain')) document.body.classList.add('plain');\n\
    if (given.has('follow')) ui.follow = true;\n\
    if (given.has('zoom')) lanes.zoom = Number(given.get('zoom')) || 0;\n\
    $('#shown').value = ui.shown; $('#follow').checked = ui.follow;\nsetSequence();\nfillChoices();\n}\n\
    function takeNames(text) {\nnames.clear();\nfor (const line of text.split('\\n')) {\n\
    const m = /^\\s*(?:0x)?([0-9a-fA-F]{3,16})\\s+(?:[A-Za-z?]\\s+)?([^\\s]+)\\s*$/.exec(line);\n\
    if (m && !m[2].startsWith('$')) names.set(parseInt(m[1], 16), m[2]);\n}\nnamesChanged();\n}\n\
    function namesChanged() {\nfillChoices();\nlayOut();\nchooseItem(ui.item, true);\n}\n\
    function elfNames(bytes) {\nconst v = new DataView(bytes), found = [];\n\
    if (v.byteLength < 52 || v.getUint32(0) !== 0x7f454c46) throw new Error('this is no ELF file');\n\
    const text = (at) => {\nlet s = '';\n\
    for (; at < v.byteLength && v.getUint8(at); at++) s += String.fromCharCode(v.getUint8(at));\n\
    return s;\n};\n\
    const table = v.getUint32(32, true), size = v.getUint16(46, true), count = v.getUint16(48, true);\n\
    const section = n => ({type: v.getUint32(table + n * size + 4, true),\n\
    at: v.getUint32(table + n * size + 16, true), bytes: v.getUint32(table + n * size + 20, true),\n\
    link: v.getUint32(table + n * size + 24, true)});\nfor (let n = 0; n < count; n++) {\n\
    const s = section(n);\nif (s.type !== 2) continue;\nconst strings = section(s.link);\n\
    for (let at = s.at; at < s.at + s.bytes; at += 16) {\n\
    const name = text(strings.at + v.getUint32(at, true)), kind = v.getUint8(at + 12) & 15;\n\
    if (name && !name.startsWith('$') && kind < 3 && v.getUint16(at + 14, true) !== 0) {\n\
    found.push(hex(v.getUint32(at + 4, true)) + ' ' + name);\n}\n}\n}\nreturn found;\n}\n\
    function setTheme(theme) {\ndocument.documentElement.dataset.theme = theme;\n}\n\
    function nextTheme() {\nconst dark = document.documentElement.dataset.theme ? \
    document.documentElement.dataset.theme === 'dark'\n\
    : matchMedia('(prefers-color-scheme: dark)').matches;\nsetTheme(dark ? 'light' : 'dark');\ndraw();\n\
    }\nfunction treeOnly() {\ndocument.body.classList.toggle('plain');\nlayOut();\ndraw();\n}\n\
    function higherLanes() {\nconst tall = document.body.classList.toggle('tall');\n\
    $('#tall').setAttribute('aria-pressed', String(tall));\ndrawLanes();\n}\nfunction typeTurn() {\n\
    $('#goto').focus();\n$('#goto').select();\n}\nconst isBusy = turn => turn.answer[0] === 'busy';\n\
    const KEYS = {\nArrowRight: () => step(1),\nArrowLeft: () => step(-1),\nPageDown: () => step(10),\n\
    PageUp: () => step(-10),\nHome: () => goTo(-1),\nEnd: () => goTo(film.turns.length - 1),\n\
    ' ': () => play(!ui.playing),\n'.': () => goTo(machine.at + 1),\n',': () => goTo(machine.at - 1),\n\
    g: typeTurn,\ni: () => jump(1, ofItem),\nI: () => jump(-1, ofItem),\nh: () => jump(1, ofHart),\n\
    H: () => jump(-1, ofHart),\nb: () => jump(1, ofBus),\nB: () => jump(-1, ofBus),\n\
    s: () => toStale(1),\nS: () => toStale(-1),\nx: () => jump(1, isBusy),\nX: () => jump(-1, isBusy),\n\
    ']': () => nextItem(1),\n'[': () => nextItem(-1),\nf: () => $('#follow').click(),\nt: nextTheme,\n\
    p: treeOnly,\nl: higherLanes,\n'+': () => zoom(1),\n'-': () => zoom(-1),\n\
    '?': () => $('#help').showModal(),\n1: () => setTab('order'),\n2: () => setTab('place'),\n\
    3: () => setTab('program'),\n4: () => setTab('items'),\n5: () => setTab('traffic'),\n};\n\
    function nextItem(by) {\n\
    const all = ui.active.length ? ui.active : [ui.item], k = all.indexOf(ui.item);\n\
    chooseItem(all[(k + by + all.length) % all.length]);\n}\nfunction setTab(tab) {\nui.tab = tab;\n\
    draw();\n}\nfunction zoom(by) {\nconst g = laneGeometry(), fit = g.w / Math.max(1, g.total);\n\
    const now = lanes.zoom === 0 ? fit : lanes.zoom, next = by > 0 ? now * 1.6 : now / 1.6;\n\
    lanes.zoom = next <= fit * 1.01 ? 0 : Math.min(next, 40);\ndrawLanes();\n}\nfunction listen() {\n\
    let byPointer = false;\n\
    document.addEventListener('pointerdown', () => { byPointer = true; }, true);\n\
    document.addEventListener('keydown', () => { byPointer = false; }, true);\n\
    document.querySelectorAll('select')\n\
    .forEach(select => select.addEventListener('change', () => { if (byPointer) select.blur(); }));\n\
    document.addEventListener('keydown', event => {\nif (!film || event.ctrlKey || event.metaKey || \
    event.altKey || document.querySelector('dialog[open]')) return;\nconst on = event.target;\n\
    if (on.matches('input[type=\"text\"], input[type=\"search\"], textarea, select')) {\n\
    if (event.key === 'Escape') on.blur();\nreturn;\n}\n\
    if ((event.key === ' ' || event.key === 'Enter')\n\
    && on.matches('button, input[type=\"checkbox\"], .box, summary')) {\n\
    if (on.matches('.box')) { event.preventDefault(); on.click(); }\nreturn;\n}\n\
    if (on.closest('#pane') && ['PageUp', 'PageDown', 'Home', 'End', ' '].includes(event.key)) return;\n\
    const act = KEYS[event.key];\nif (act) {\nevent.preventDefault();\n\
    if (event.key !== ' ' && ui.playing && event.key.length > 1) play(false);\nact();\n}\n});\n\
    const click = (id, act) => $(id).addEventListener('click', act);\n\
    click('#first', () => goTo(-1)); click('#last', () => goTo(film.turns.length - 1));\n\
    click('#back', () => { play(false); step(-1); }); click('#next', () => { play(false); step(1); });\n\
    click('#play', () => play(!ui.playing));\n\
    for (const [id, holds] of [['item', ofItem], ['hart', ofHart], ['bus', ofBus]]) {\n\
    click(`#${id}back`, () => jump(-1, holds));\nclick(`#${id}next`, () => jump(1, holds));\n}\n\
    click('#stale', KEYS.s);\nclick('#theme', nextTheme);\n\
    click('#ask', () => $('#help').showModal());\nclick('#plain', KEYS.p);\nclick('#tall', KEYS.l);\n\
    click('#zoomin', () => zoom(1));\nclick('#zoomout', () => zoom(-1));\n\
    click('#zoomall', () => { lanes.zoom = 0; drawLanes(); });\n\
    click('#names', () => { $('#nametext').value = [...names].map(([a, n]) => hex(a) + ' ' + n)\n\
    .join('\\n'); $('#namebox').showModal(); });\n\
    click('#namesdone', () => { takeNames($('#nametext').value); $('#namebox').close(); });\n\
    click('#reportnow', () =>\n\
    { $('#reporttext').value = machine.report().join('\\n') + '\\n'; $('#reportbox').showModal(); });\n\
    $('#elf').addEventListener('change', async () => {\ntry {\n$('#nametext').value = elfNames(await \
    $('#elf').files[0].arrayBuffer()).join('\\n') || 'no symbols there';\n\
    } catch (error) { $('#nametext').value = String(error.message); }\n});\n\
    document.querySelectorAll('dialog [data-close]')\n\
    .forEach(b => b.addEventListener('click', () => b.closest('dialog').close()));\n\
    $('#slider').addEventListener('input',\nevent => { play(false); const p = \
    Number(event.target.value); goTo(p === 0 ? -1 : ui.sequence[p - 1], true); });\n\
    $('#goto').addEventListener('change',\nevent => { const n = parseInt(event.target.value, 10); \
    goTo(isNaN(n) ? -1 : n); event.target.blur(); });\n\
    $('#speed').addEventListener('change', event => { ui.speed = Number(event.target.value); });\n\
    $('#shown').addEventListener('change', event => { ui.shown = event.target.value; setSequence(); \
    draw(); });\n$('#follow').addEventListener('change',\nevent => {\n\
    ui.follow = event.target.checked;\nconst now = film.turns[machine.at];\n\
    if (ui.follow && now && now.item >= 0) chooseItem(now.item);\n});\nconst input = $('#item');\n\
    input.addEventListener('focus', () => input.select());\ninput.addEventListener('change',\n() => {\n\
    const x = findItem(input.value);\nif (x < 0) {\nsay('No such item.');\n\
    input.value = itemText(ui.item);\n} else { input.blur(); chooseItem(x, true); }\n});\n\
    document.querySelectorAll('#tabs [role=\"tab\"]')\n\
    .forEach(tab => tab.addEventListener('click', () => setTab(tab.dataset.tab)));\n\
    $('#stage').addEventListener('click', event => {\n\
    const mini = event.target.closest('[data-item]');\n\
    if (mini) { chooseItem(Number(mini.dataset.item)); return; }\n\
    const box = event.target.closest('.box');\nif (box) {\n\
    choosePlace(box.dataset.leaf !== undefined ? {leaf: Number(box.dataset.leaf)}\n\
    : {bus: Number(box.dataset.bus)});\n}\n});\n$('#pane').addEventListener('click',\nevent => { const \
    row = event.target.closest('tr[data-item]'); if (row) chooseItem(Number(row.dataset.item)); });\n\
    const canvas = $('#lanecanvas'), tip = $('#tip');\nlet dragging = false;\n\
    const seek = event => { const k = laneTurnAt(event); if (k >= 0) goTo(ui.sequence[k], true); };\n\
    canvas.addEventListener('pointerdown',\nevent => { dragging = true; \
    canvas.setPointerCapture(event.pointerId); play(false); seek(event); });\n\
    canvas.addEventListener('pointermove', event => {\nif (dragging) { seek(event); return; }\n\
    const k = laneTurnAt(event);\nif (k < 0) { tip.classList.add('hidden'); return; }\n\
    tip.textContent = film.turns[ui.sequence[k]].text;\ntip.classList.remove('hidden');\n\
    tip.style.left = Math.min(event.clientX + 14, innerWidth - tip.offsetWidth - 8) + 'px';\n\
    tip.style.top = event.clientY - tip.offsetHeight - 10 + 'px';\n});\n\
    canvas.addEventListener('pointerup', () => { dragging = false; });\n\
    canvas.addEventListener('pointerleave', () => tip.classList.add('hidden'));\n\
    canvas.addEventListener('wheel',\nevent => {\n\
    if (event.ctrlKey || event.shiftKey) { event.preventDefault(); zoom(event.deltaY < 0 ? 1 : -1); }\n\
    }, {passive: false});\nlet resizing = 0;\nnew ResizeObserver(() => {\nif (!film) return;\n\
    cancelAnimationFrame(resizing);\nresizing = requestAnimationFrame(() => { layOut(); draw(); });\n\
    }).observe($('#tree'));\n\
    matchMedia('(prefers-color-scheme: dark)').addEventListener('change', () => film && draw());\n\
    const take = async file => {\ntry { open(await file.text()); } catch (error) { \
    $('#dropsays').textContent = String(error.message); }\n};\n\
    $('#filmfile').addEventListener('change', event => take(event.target.files[0]));\n\
    document.addEventListener('dragover', event => event.preventDefault());\n";

const BACK_6: &[u8] = b"\
    document.addEventListener('drop',\nevent => { event.preventDefault(); if \
    (event.dataTransfer.files[0]) take(event.dataTransfer.files[0]); });\n}\nfunction runTests() {\n\
    const failed = [], check = (what, ok) => { if (!ok && failed.length < 20) failed.push(what); };\n\
    const m = new Machine(film), first = m.report().join('\\n');\nm.moveTo(film.turns.length - 1);\n\
    check('the last state is the report\\u2019s', m.report().join('\\n') === film.report.join('\\n'));\n\
    m.moveTo(-1);\ncheck('back at the start', m.report().join('\\n') === first);\n\
    const steps = Math.max(1, Math.floor(film.turns.length / 60));\n\
    for (let n = -1; n < film.turns.length; n += n < 40 ? 1 : steps) {\ngoTo(n, true);\n\
    film.leaves.forEach(({leaf}) => {\nconst e = machine.entry(leaf, ui.item), drawn = \
    document.querySelector(`.box[data-leaf=\"${leaf}\"] .tile`);\n\
    check(`turn ${n}, leaf ${leaf}`, drawn && drawn.dataset.state === (e ? e.state : '-'));\n});\n\
    check(`turn ${n}, card`, document.querySelector('#card').textContent.includes(n < 0 ? 'Start' : \
    'Turn ' + n));\nif (n >= 0) { before.moveTo(n - 1); check(`turn ${n}, words`, \
    !/undefined|NaN/.test(document.body.innerText)); }\n}\nfor (const tab of Object.keys(PANES)) {\n\
    ui.tab = tab;\nfor (const n of [-1, 0, film.turns.length >> 1, film.turns.length - 1]) {\n\
    goTo(n, true);\ncheck(`${tab} at turn ${n}`, document.querySelector('#pane').textContent !== ''\n\
    && !/undefined|NaN/.test(document.querySelector('#pane').textContent));\n}\n}\n\
    for (const item of ui.active.slice(0, 5)) chooseItem(item);\nui.tab = 'order';\ngoTo(-1, true);\n\
    document.title = failed.length ? 'FAIL ' + failed[0] : 'PASS ' + film.turns.length + ' turns';\n\
    document.body.dataset.test = failed.length ? failed.join('; ') : 'pass';\n}\nlisten();\n\
    begin($('#film').textContent);\nfunction begin(text) {\nif (!/^film /m.test(text)) return;\ntry {\n\
    open(text);\nif (location.hash.includes('test')) runTests();\n} catch (error) {\n\
    document.title = 'FAIL ' + error.message;\n\
    $('#dropsays').textContent = String(error.stack || error.message);\n}\n}\n\
    window.ddmPage = {machine: () => machine, ui};\n</script>\n</body>\n</html>\n";

#[tactic(auto, unfolding(crate::specs::Page::front_0))]
fn front_0() -> &'static [u8]
    ensures { result.now ≡ front_0 }
{
    FRONT_0
}

#[tactic(auto, unfolding(crate::specs::Page::front_1))]
fn front_1() -> &'static [u8]
    ensures { result.now ≡ front_1 }
{
    FRONT_1
}

#[tactic(auto, unfolding(crate::specs::Page::back_0))]
fn back_0() -> &'static [u8]
    ensures { result.now ≡ back_0 }
{
    BACK_0
}

#[tactic(auto, unfolding(crate::specs::Page::back_1))]
fn back_1() -> &'static [u8]
    ensures { result.now ≡ back_1 }
{
    BACK_1
}

#[tactic(auto, unfolding(crate::specs::Page::back_2))]
fn back_2() -> &'static [u8]
    ensures { result.now ≡ back_2 }
{
    BACK_2
}

#[tactic(auto, unfolding(crate::specs::Page::back_3))]
fn back_3() -> &'static [u8]
    ensures { result.now ≡ back_3 }
{
    BACK_3
}

#[tactic(auto, unfolding(crate::specs::Page::back_4))]
fn back_4() -> &'static [u8]
    ensures { result.now ≡ back_4 }
{
    BACK_4
}

#[tactic(auto, unfolding(crate::specs::Page::back_5))]
fn back_5() -> &'static [u8]
    ensures { result.now ≡ back_5 }
{
    BACK_5
}

#[tactic(auto, unfolding(crate::specs::Page::back_6))]
fn back_6() -> &'static [u8]
    ensures { result.now ≡ back_6 }
{
    BACK_6
}

/// A part of what is before a film, by its number.
pub fn front_part(number: usize) -> Option<&'static [u8]>
    ensures part { IfSome result (λ part. Some part.now ≡ slice_get front_parts number) }
    ensures end { IfNone result (length front_parts ≤ number) }
{
    match number {
        0 => Some(front_0()),
        1 => Some(front_1()),
        _ => None,
    }
}

/// A part of what is behind a film, by its number.
pub fn back_part(number: usize) -> Option<&'static [u8]>
    ensures part { IfSome result (λ part. Some part.now ≡ slice_get back_parts number) }
    ensures end { IfNone result (length back_parts ≤ number) }
{
    match number {
        0 => Some(back_0()),
        1 => Some(back_1()),
        2 => Some(back_2()),
        3 => Some(back_3()),
        4 => Some(back_4()),
        5 => Some(back_5()),
        6 => Some(back_6()),
        _ => None,
    }
}
