//! Comparing one part of data with the same part of other data.

ghost use Rattle.std.specs.Prelude.{◌≡◌, [], ◌∷◌};
ghost use Rattle.std.specs.Map.Iter.{TakesFirst};
ghost use Rattle.std.specs.declared.cmp.Ordering.TheVariants.{Equal};
ghost use Rattle.data_memory.specs.Data.{IsData, name_cmp};
ghost use Rattle.diff_work.specs.PrivateChanges.{behind, changed_in, is_changed};

use crate::part::Part;
use rtr_base::action::Action;
use std::cmp::Ordering;

/// A part of data and the same part of other data, compared in one pass over both, which are in the
/// same order.
#[derive(Drop)]
pub struct Beside<P: Part> {
    /// The payloads that are left.
    pub members: P,
    /// The first of the other payloads that is left.
    pub other: Option<P::Lent>,
    /// The other payloads after it.
    pub others: P,
}

impl<P: Part> Beside<P> {
    /// Starts a pass over both parts.
    pub fn new(members: P, mut others: P) -> Beside<P>
        ensures members { P.left result.members ≡ P.left members }
        ensures others { behind P.meant result.other (P.left result.others) ≡ P.left others }
    {
        let other = others.next_lent();
        Beside {
            members,
            other,
            others,
        }
    }

    /// Takes the next payload that makes a change of this action.
    pub fn next_changed(&mut self, action: Action) -> Option<P::Lent>
        requires members { IsData (P.left self.old.members) }
        requires others { IsData (behind P.meant self.old.other (P.left self.old.others)) }
        ensures members { IsData (P.left self.new.members) }
        ensures others { IsData (behind P.meant self.new.other (P.left self.new.others)) }
        ensures takes { TakesFirst P.meant
            (changed_in action (behind P.meant self.old.other (P.left self.old.others))
            (P.left self.old.members)) result
            (changed_in action (behind P.meant self.new.other (P.left self.new.others))
            (P.left self.new.members)) }
    {
        let Some(mut member) = self.members.next_lent() else {
            return None;
        };
        'members: loop {
            let Some(other) = self.other else {
                return Some(member);
            };
            match P::compare_names(member, other) {
                Ordering::Less => return Some(member),
                Ordering::Greater => self.other = self.others.next_lent(),
                Ordering::Equal => {
                    self.other = self.others.next_lent();
                    if is_replaced::<P>(action, member, other) {
                        return Some(member);
                    }
                    let Some(next) = self.members.next_lent() else {
                        return None;
                    };
                    member = next;
                }
            }
        }
    }
}

/// Reports whether a payload makes a change of this action although the other data have this one of
/// its name.
fn is_replaced<P: Part>(action: Action, one: P::Lent, other: P::Lent) -> bool
    requires { name_cmp (P.meant one) (P.meant other) ≡ Equal }
    ensures { result ≡ is_changed action (P.meant other ∷ []) (P.meant one) }
{
    match action {
        Action::Announce => P::replaces(one, other),
        Action::Withdraw => false,
    }
}
