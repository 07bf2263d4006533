//! The laws hold of nothing but definitions, and want nothing.
use fix_session_judging::laws;

/// A law asks nothing of who cites it, and does nothing when it runs. That it holds is the prover's to say.
#[test]
fn laws_have_no_premises() {
    laws::judged();
    laws::lawful();
    laws::said_after();
    laws::closed_after();
    laws::closes_once();
}
