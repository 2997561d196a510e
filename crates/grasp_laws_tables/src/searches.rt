//! How searches stand and end, and who asked for a response. These functions say nothing at run time.

ghost use Rattle.grasp_laws_tables.specs.Searches.{AskersAsked, FindsSay, SearchesEnd};

/// Whoever looks for a topic is told all locators that are cached under it, and else whether its search goes on, is over,
/// or isn't there.
#[tactic(auto, using(crate::proofs::SearchLaws::finds_say))]
pub fn finds_say()
    ensures { FindsSay }
{}

/// An answer that something was found, or that there is nothing, ends just that agent's search for the topic; an agent that
/// leaves ends just its searches; a search that begins comes last, and ends after its timeout.
#[tactic(auto, using(crate::proofs::SearchLaws::searches_end))]
pub fn searches_end()
    ensures { SearchesEnd }
{}

/// A response is for the search of this node that has its number, or else for the remembered discovery of its number and
/// initiator, and nobody asked for it exactly where there is neither.
#[tactic(auto, using(crate::proofs::SearchLaws::askers_asked))]
pub fn askers_asked()
    ensures { AskersAsked }
{}
