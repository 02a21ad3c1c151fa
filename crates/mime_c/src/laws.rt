//! Laws that follow from only the definitions of the calls. Each law is the clause of an empty function.
#![tactic(auto, using(crate::proofs::LawLemmas::laws))]

ghost use Rattle.mime_c.specs.Laws.{ReadsToOne, ListsToOne, ComparesAsOne, HeaderReadsToOne, AcceptsToOne, BestIsOne, OrderIsOne};
ghost use Rattle.mime_c.specs.Laws.{BoundaryIsOne, UnescapesToOne, SetsToOne};

/// Unless memory runs out, `mime_read` of a text into a buffer has exactly one outcome.
pub fn reads_to_one()
    ensures { ReadsToOne }
{}

/// Unless memory runs out, `mime_list` of a text into a buffer has exactly one outcome.
pub fn lists_to_one()
    ensures { ListsToOne }
{}

/// Unless memory runs out, `mime_equal` of two texts has exactly one outcome.
pub fn compares_as_one()
    ensures { ComparesAsOne }
{}

/// Unless memory runs out, `mime_content_type` of a value into a buffer has exactly one outcome.
pub fn header_reads_to_one()
    ensures { HeaderReadsToOne }
{}

/// Unless memory runs out, `mime_accept` of a line into a buffer has exactly one outcome.
pub fn accepts_to_one()
    ensures { AcceptsToOne }
{}

/// Unless memory runs out, `mime_best` of a header and a list of offers has exactly one outcome.
pub fn best_is_one()
    ensures { BestIsOne }
{}

/// Unless memory runs out, `mime_order` of a header and a list of offers has exactly one outcome.
pub fn order_is_one()
    ensures { OrderIsOne }
{}

/// Unless memory runs out, `mime_boundary` of a value into a buffer has exactly one outcome.
pub fn boundary_is_one()
    ensures { BoundaryIsOne }
{}

/// `mime_unescape` of a value into a buffer has exactly one outcome.
pub fn unescapes_to_one()
    ensures { UnescapesToOne }
{}

/// Unless memory runs out, `mime_set_parameter` of a media type, a name and a value into a buffer has exactly one outcome.
pub fn sets_to_one()
    ensures { SetsToOne }
{}
