//! The order of a plan's JSON.

ghost use Rattle.std.specs.Prelude.{◌≡◌, map, MatchResult, MatchOption, IfOk, Some, None};
ghost use Rattle.std.specs.List.{list_all};
ghost use Rattle.serde_json.specs.View.{view};
ghost use Rattle.mp_text.specs.Reading.{GivesBy, tested};
ghost use Rattle.plan_orders.specs.PlanOrder.{task_of, is_task, number_on, order_in, value_of_text, json_tests, json_numbers};
ghost use Rattle.plan_orders.specs.Reader.{IsNoJson};

use crate::NoMemory;
use limits::{LimitName, MOST_TASKS};
use mp_text::{Refusal, fault};
use plan_files::{MOST_NUMBER, PlanKind};
use serde_json::Value;
use std::alloc::Global;

// A refusal of JSON names line 1, for the text as a whole.
const WHOLE: u64 = 1;

// The task that a value is, if it is one.
#[tactic(auto, unfolding(crate::specs::PlanOrder::task_of))]
fn task_of(value: &Value) -> Option<u32>
    ensures { result ≡ task_of (view value.now) }
{
    let number = value.as_u64()?;
    if number > MOST_NUMBER {
        return None;
    }
    Some(number as u32)
}

fn are_tasks(values: &[Value]) -> bool
    ensures { result ≡ list_all (λ v. is_task (view v)) values.now }
{
    values.iter().all(|value| task_of(value).is_some())
}

fn numbers_of(alloc: Global, values: &[Value]) -> Result<Vec<u32>, NoMemory>
    ensures { IfOk result (λ numbers. numbers.items ≡ map (λ v. number_on (view v)) values.now) }
{
    values
        .iter()
        .map(|value| task_of(value).unwrap_or(0))
        .collect(alloc)
}

// The value of a text, if it is JSON.
fn value_of(alloc: Global, bytes: &[u8]) -> Result<Value, Refusal<PlanKind>>
    ensures { MatchResult result (λ value. value_of_text bytes.now ≡ Some (view value)) (IsNoJson bytes.now) }
{
    match Value::from_slice(alloc, bytes) {
        Ok(value) => Ok(value),
        Err(error) if error.is_memory() => Err(Refusal::NoMemory),
        Err(_) => Err(fault(WHOLE, PlanKind::Json)),
    }
}

// The array of the member `order`.
fn order_of(value: &Value) -> Option<&[Value]>
    ensures { MatchOption result (order_in (view value.now) ≡ None) (λ values. order_in (view value.now) ≡ Some (map view values.now)) }
{
    let items = value.get("order")?.as_array()?;
    Some(items)
}

/// The numbers of the member `order` of an object.
pub fn read_json(alloc: Global, bytes: &[u8]) -> Result<Vec<u32>, Refusal<PlanKind>>
    ensures { GivesBy (λ v. v.items) (tested (json_tests bytes.now) (json_numbers bytes.now)) result }
{
    let value = value_of(alloc, bytes)?;
    let values = order_of(&value).ok_or(fault(WHOLE, PlanKind::Json))?;
    if values.len() as u64 > MOST_TASKS {
        return Err(Refusal::Limit(LimitName::Tasks));
    }
    if !are_tasks(values) {
        return Err(fault(WHOLE, PlanKind::Number));
    }
    Ok(numbers_of(alloc, values)?)
}
