// The calls: first those that leave the memory, then those that both indexes have too; the others the hub's index alone
// has, and a save leaves the memory.
#[derive(Clone, Copy, Debug, PartialEq, Eq)]
pub enum Call {
    Search,
    Check,
    Listing,
    ViewCheck,
    View,
    Insert,
    Delete,
    Layout,
    SetCharge,
    Save,
    Load,
}

impl Call {
    pub fn name(self) -> &'static str {
        match self {
            Call::Search => "search",
            Call::Check => "check",
            Call::Listing => "listing",
            Call::ViewCheck => "view_check",
            Call::View => "view",
            Call::Insert => "insert",
            Call::Delete => "delete",
            Call::Layout => "layout",
            Call::SetCharge => "set_charge",
            Call::Save => "save",
            Call::Load => "load",
        }
    }
}
