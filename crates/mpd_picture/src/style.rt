//! What is the same in each drawing: how it begins, how shapes look, and the legend (docs/PICTURES.md, "The whole").

/// How a drawing begins, up to its width.
pub const OPENED: &str = "<svg xmlns=\"http://www.w3.org/2000/svg\" class=\"mpd\" version=\"1.1\"";

/// How shapes look, by their class.
pub const STYLE: &str = "<style type=\"text/css\">\n\
.mpd{font-family:monospace;font-size:11px;fill:#000}\n\
.mpd-head{font-size:13px;font-weight:bold}\n\
.mpd-name{text-anchor:middle}\n\
.mpd-left{text-anchor:end}\n\
.mpd-paper{fill:#fff}\n\
.mpd-lane{stroke:#999;stroke-width:1}\n\
.mpd-waiting{stroke:#b45f06;stroke-width:5}\n\
.mpd-posted{stroke:#38761d;stroke-width:1.5;stroke-dasharray:4 2;fill:none}\n\
.mpd-arrow{stroke:#0b5394;stroke-width:1.5;fill:none;marker-end:url(#mpd-tip)}\n\
.mpd-candidate{stroke:#0b5394;stroke-width:1.5;stroke-dasharray:6 4;fill:none;marker-end:url(#mpd-tip)}\n\
.mpd-want{stroke:#c00;stroke-width:1.5;stroke-dasharray:2 3;fill:none;marker-end:url(#mpd-wanted)}\n\
.mpd-number{font-size:13px;font-weight:bold;text-anchor:middle}\n\
.mpd-bar{stroke:#000;stroke-width:4}\n\
.mpd-stub{stroke:#000;stroke-width:1.5;fill:#fff}\n\
.mpd-send{fill:#0b5394;stroke:#000}\n\
.mpd-recv{fill:#fff;stroke:#000;stroke-width:1.5}\n\
.mpd-wait{fill:#b45f06;stroke:#000}\n\
.mpd-waitany{fill:#fff;stroke:#b45f06;stroke-width:2}\n\
.mpd-barrier{fill:#000;stroke:#000}\n\
.mpd-print{fill:#ffd966;stroke:#000}\n\
.mpd-ended{fill:none;stroke:#000;stroke-width:3}\n\
.mpd-running{fill:#fff;stroke:#000;stroke-width:1.5}\n\
.mpd-held{fill:#fff;stroke:#b45f06;stroke-width:2}\n\
.mpd-blocked{fill:#c00;stroke:#000}\n\
.mpd-trapped{fill:none;stroke:#c00;stroke-width:3}\n\
</style>\n\
<defs><marker id=\"mpd-tip\" viewBox=\"0 0 10 10\" refX=\"10\" refY=\"5\" markerWidth=\"9\" markerHeight=\"9\" markerUnits=\"userSpaceOnUse\" orient=\"auto\">\
<path d=\"M0 1L10 5L0 9z\" fill=\"#0b5394\"/></marker>\
<marker id=\"mpd-wanted\" viewBox=\"0 0 10 10\" refX=\"10\" refY=\"5\" markerWidth=\"9\" markerHeight=\"9\" markerUnits=\"userSpaceOnUse\" orient=\"auto\">\
<path d=\"M0 1L10 5L0 9z\" fill=\"#c00\"/></marker></defs>\n";

/// How texts look in a large drawing.
pub const LARGE_STYLE: &str = "<style type=\"text/css\">\n\
.mpd{font-family:sans-serif;font-size:15px}\n\
.mpd-head{font-size:17px}\n\
.mpd-number{font-size:17px}\n\
</style>\n";

/// What the shapes are, and how a drawing ends.
pub const LEGEND: &str =
    "<path class=\"mpd-send\" d=\"M20 0m-5 0a5 5 0 1 0 10 0a5 5 0 1 0 -10 0z\"/><text x=\"40\" y=\"4\">a send</text>\n\
<path class=\"mpd-recv\" d=\"M20 20m-5 0a5 5 0 1 0 10 0a5 5 0 1 0 -10 0z\"/><text x=\"40\" y=\"24\">a receive</text>\n\
<path class=\"mpd-wait\" d=\"M20 40m-5 -5h10v10h-10z\"/><text x=\"40\" y=\"44\">a wait</text>\n\
<path class=\"mpd-waitany\" d=\"M20 60m-5 -5h10v10h-10z\"/><text x=\"40\" y=\"64\">a wait for any</text>\n\
<path class=\"mpd-barrier\" d=\"M20 80m-8 -3h16v6h-16z\"/><text x=\"40\" y=\"84\">a barrier</text>\n\
<path class=\"mpd-want\" d=\"M10 100L30 100\"/><text x=\"40\" y=\"104\">waits for a rank</text>\n\
<path class=\"mpd-print\" d=\"M20 120m0 -5l5 5l-5 5l-5 -5z\"/><text x=\"40\" y=\"124\">a print</text>\n\
<path class=\"mpd-arrow\" d=\"M200 -5L220 5\"/><text x=\"230\" y=\"4\">a message, up to its match</text>\n\
<path class=\"mpd-stub\" d=\"M204 14l12 16m-3 0a3 3 0 1 0 6 0a3 3 0 1 0 -6 0\"/><text x=\"230\" y=\"24\">a send that is not matched</text>\n\
<path class=\"mpd-stub\" d=\"M218 40l-18 0m-3 0a3 3 0 1 0 6 0a3 3 0 1 0 -6 0\"/><text x=\"230\" y=\"44\">a receive that is not</text>\n\
<line class=\"mpd-posted\" x1=\"200\" y1=\"60\" x2=\"220\" y2=\"60\"/><text x=\"230\" y=\"64\">a receive is posted</text>\n\
<line class=\"mpd-waiting\" x1=\"200\" y1=\"80\" x2=\"220\" y2=\"80\"/><text x=\"230\" y=\"84\">a rank waits</text>\n\
<path class=\"mpd-candidate\" d=\"M200 95L220 105\"/><text x=\"230\" y=\"104\">a candidate of a choice</text>\n\
<line class=\"mpd-bar\" x1=\"430\" y1=\"0\" x2=\"450\" y2=\"0\"/><text x=\"460\" y=\"4\">a release</text>\n\
<path class=\"mpd-ended\" d=\"M440 20m-9 0h18\"/><text x=\"460\" y=\"24\">ended</text>\n\
<path class=\"mpd-blocked\" d=\"M440 40m-3 -7h6l5 5v5l-5 5h-6l-5 -5v-5z\"/><text x=\"460\" y=\"44\">blocked for good</text>\n\
<path class=\"mpd-trapped\" d=\"M440 60m-6 -6l12 12m0 -12l-12 12\"/><text x=\"460\" y=\"64\">trapped</text>\n\
<path class=\"mpd-running\" d=\"M440 80m-6 -5h12l-6 10z\"/><text x=\"460\" y=\"84\">can go on</text>\n\
<path class=\"mpd-held\" d=\"M440 100m-6 -7h12l-12 14h12z\"/><text x=\"460\" y=\"104\">waits</text>\n\
</g>\n\
</svg>\n";

/// What the letters of a picture in text are.
pub const LETTERS: &str =
    "S send, R receive, W wait, A waitany, B barrier, P print, o-> match, == release\n\
at the end: E ended, V can go on, ~ waits, ! blocked, X trapped\n";
