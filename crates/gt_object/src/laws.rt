ghost use Rattle.gt_object.specs.Laws.{RecordsHaveHeaders, RecordsHaveParts, TreesAreEntries, CommitsAreLines, TagsAreLines, FaultsHavePlaces};

/// Bytes are a record exactly where they are the header of a content of the grammar, and that content.
pub fn records_have_headers()
    ensures { RecordsHaveHeaders }
{}

/// The kind, the content and the needed objects of a record are those of the header and the content that it is.
pub fn records_have_parts()
    ensures { RecordsHaveParts }
{}

/// A tree is its entries, one after the other.
pub fn trees_are_entries()
    ensures { TreesAreEntries }
{}

/// A commit is a tree line, parent lines, and a rest that doesn't begin with `parent `.
pub fn commits_are_lines()
    ensures { CommitsAreLines }
{}

/// A tag is an object line, a type line, and any rest.
pub fn tags_are_lines()
    ensures { TagsAreLines }
{}

/// The place of a fault is the begin of the first entry of a tree or the first line of a commit or a tag that breaks.
pub fn faults_have_places()
    ensures { FaultsHavePlaces }
{}
