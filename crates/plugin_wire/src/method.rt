ghost use Rattle.std.specs.Prelude.{◌≡◌, ℕ, ◌<◌, ◌↔◌, IfSome, Some, slice_get};
ghost use Rattle.plugin_wire.specs.Methods.{method_names, method_at, method_named};

use case_table::{Cases, arms};

/// The methods of plugins, in the order of their names.
#[derive(Clone, Copy)]
pub enum Method {
    Ack,
    Alert,
    Edit,
    GetData,
    LineCount,
    UpdateSpans,
}

/// The method of this name.
#[tactic(auto, using(crate::proofs::MethodRows::method_of_none))]
pub fn method_named(name: &str) -> Option<Method>
    ensures { result ≡ method_named name.now }
{
    match row_of(name) {
        Some(row) => Some(method_at(row)),
        None => None,
    }
}

/// The row of a name in the table of methods.
fn row_of(name: &str) -> Option<usize>
    ensures own { (row : ℕ) → (result ≡ Some row) ↔ (slice_get method_names row ≡ Some name.now) }
    ensures within { IfSome result (λ row. row < 6) }
{
    let Ok(table) = Cases::<6>::new("ack alert edit get_data line_count update_spans ") else {
        unreachable!()
    };
    table.find(name)
}

fn method_at(row: usize) -> Method
    requires { row < 6 }
    ensures { result ≡ method_at row }
{
    arms!(row =>
        Method::Ack, Method::Alert, Method::Edit, Method::GetData, Method::LineCount, Method::UpdateSpans;
        else unreachable!())
}
