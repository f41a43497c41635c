//! The conditions that are open at a place of a text.

ghost use Rattle.std.specs.Prelude.{◌≡◌, if◌then◌else◌, Some, None};
ghost use Rattle.tp_lexer.specs.Effects.{innermost, is_read, asked, unasked, turned_one, turned, closed};

use type_layout::Place;

/// A condition that is open.
#[derive(Clone, Copy, Debug, PartialEq, Eq)]
pub struct Condition {
    /// The place of the directive that opened it.
    pub place: Place,
    /// Whether the text that stands in it now is read.
    pub read: bool,
    /// Whether the text behind its `{$ELSE}` will be read, where that has not come yet.
    pub otherwise: Option<bool>,
}

/// The innermost condition that is open.
pub fn innermost(conditions: &[Condition]) -> Option<Condition>
    ensures { result ≡ innermost conditions.now }
{
    conditions.last().copied()
}

/// Whether the text behind these conditions is read.
pub fn is_read(conditions: &[Condition]) -> bool
    ensures { result ≡ is_read conditions.now }
{
    match innermost(conditions) {
        None => true,
        Some(condition) => condition.read,
    }
}

/// A condition whose first part is read, or whose other part.
pub fn asked(place: Place, is_met: bool) -> Condition
    ensures { result ≡ asked place is_met }
{
    Condition {
        place,
        read: is_met,
        otherwise: Some(!is_met),
    }
}

/// A condition of which nothing is read.
pub fn unasked(place: Place) -> Condition
    ensures { result ≡ unasked place }
{
    Condition {
        place,
        read: false,
        otherwise: Some(false),
    }
}

fn turned_one(conditions: &[Condition]) -> Option<Condition>
    ensures { result ≡ turned_one conditions.now }
{
    let condition = innermost(conditions)?;
    let read = condition.otherwise?;
    Some(Condition {
        place: condition.place,
        read,
        otherwise: None,
    })
}

/// Passes on to the other part of the innermost condition, where one is open that has not come to it.
pub fn turn(conditions: &mut Vec<Condition>) -> bool
    ensures { turned conditions.old.items ≡ (if result then Some conditions.new.items else None) }
{
    match turned_one(conditions.as_slice()) {
        None => false,
        Some(condition) => {
            let last = conditions.len().saturating_sub(1);
            if last < conditions.len() {
                conditions[last] = condition;
            }
            true
        }
    }
}

/// Closes the innermost condition, where one is open.
pub fn close(conditions: &mut Vec<Condition>) -> bool
    ensures { closed conditions.old.items ≡ (if result then Some conditions.new.items else None) }
{
    conditions.pop().is_some()
}
