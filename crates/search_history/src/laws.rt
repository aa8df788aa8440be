//! Laws of what a search finds.
ghost use Rattle.history_words.specs.Claim.{Claim};
ghost use Rattle.search_history.specs.Answers.{IsFound, IsInOrder};
ghost use Rattle.search_history.specs.declared.searching.Sought.{Sought};

use history_words::laws::answered_first_acts_first as requests_act_in_real_time_order;

/// A log for which a history is found is linearizable, in the words of Herlihy and Wing (1990): the history explains it,
/// and keeps the order of real time. If the response to one request comes before the invocation of another, the first
/// stands before the second in the history.
pub fn answered_first_acts_first()
    ensures { (x : Claim) (s : Sought) → IsFound x s → IsInOrder x s }
{
    requests_act_in_real_time_order();
}
