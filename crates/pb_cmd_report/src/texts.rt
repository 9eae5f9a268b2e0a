//! The constant texts of the page, in their order.

/// The beginning of the page.
pub(crate) const HEAD: &str = "\
<!doctype html>\n\
<html lang=\"en\">\n\
<head>\n\
<meta charset=\"utf-8\">\n\
<meta name=\"viewport\" content=\"width=device-width, initial-scale=1\">\n\
<meta http-equiv=\"Content-Security-Policy\" \
content=\"default-src 'none'; style-src 'unsafe-inline'; script-src 'unsafe-inline'\">\n";

/// What comes before the title.
pub(crate) const TITLE: &str = "\
<title>Network report</title>\n\
</head>\n\
<body>\n\
<header><h1>Network report</h1>\n\
<p id=\"title\">";

/// What comes after the title.
pub(crate) const AFTER_TITLE: &str = "</p>\n";

/// What comes before the picture.
pub(crate) const BEFORE_PICTURE: &str = "\
</header>\n\
<main>\n\
<section id=\"network\"><h2>Network</h2>\n\
<p id=\"state\" role=\"status\">Nothing down.</p>\n\
<div id=\"picture\">\n";

/// What comes after the picture.
pub(crate) const AFTER_PICTURE: &str = "</div></section>\n";

/// What comes before the title of the old plan.
pub(crate) const CHANGE: &str = "\
<section id=\"change\"><h2>Change</h2>\n\
<p>From <b id=\"old-title\">";

/// What comes between the title of the old plan and what `diff` says.
pub(crate) const AFTER_OLD_TITLE: &str = "</b>:</p>\n<pre>";

/// What comes between what `diff` says and the picture of the old network. The picture has a document tree of its own,
/// since parts of both pictures have the same identifiers.
pub(crate) const BEFORE_OLD_PICTURE: &str = "\
</pre>\n\
<h3>Network before the change, with nothing down</h3>\n\
<div id=\"old-picture\"><template shadowrootmode=\"open\">\n\
<style>svg { display: block; max-width: max(100%, 640px); height: auto; margin: 0 auto }</style>\n";

/// What comes after the picture of the old network.
pub(crate) const AFTER_CHANGE: &str = "</template></div></section>\n";

/// The beginning of the table of failures.
pub(crate) const FAILURES: &str = "\
<section id=\"failures\"><h2>Failures</h2>\n\
<div class=\"rows\"><table>\n\
<thead><tr><th>Failure</th><th>Converged</th><th>Loop</th><th>Disconnected sites</th></tr></thead>\n\
<tbody>\n";

/// The beginning of the table of services.
pub(crate) const SERVICES: &str = "\
<section id=\"services\"><h2>Services with nothing down</h2>\n\
<div class=\"rows\"><table>\n\
<thead><tr><th>Service</th><th>VID</th><th>Sites</th><th>Active links</th><th>Health</th></tr></thead>\n\
<tbody>\n";

/// The beginning of the table of sites.
pub(crate) const SITES: &str = "\
<section id=\"sites\"><h2>Sites</h2>\n\
<div class=\"rows\"><table>\n\
<thead><tr><th>Site</th><th>Service</th><th>Bridge</th><th>Port</th></tr></thead>\n\
<tbody>\n";

/// The beginning of the table of the spanning tree.
pub(crate) const TREE: &str = "\
<section id=\"tree\"><h2>Spanning tree with nothing down</h2>\n\
<div class=\"rows\"><table>\n\
<thead><tr><th>Bridge</th><th>Port</th><th>Link</th><th>Role</th><th>State</th><th>Path cost</th>\
<th>Designated bridge</th></tr></thead>\n\
<tbody>\n";

/// The end of a table.
pub(crate) const TABLE_END: &str = "</tbody></table></div></section>\n";

/// What comes before the text of the plan file.
pub(crate) const BEFORE_PLAN: &str = "\
<section id=\"plan\"><h2>Plan</h2>\n\
<pre>";

/// What comes after the text of the plan file.
pub(crate) const AFTER_PLAN: &str = "\
</pre></section>\n\
</main>\n";
