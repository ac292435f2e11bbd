//! The numbers of receive windows.
ghost use Rattle.std.specs.Prelude.{◌≡◌};
ghost use Rattle.desk_wire.specs.Windows.{window_number, window_numbered};

use registry_core::Window;

/// Returns the window with this number, `None` if and only if the number is neither 1 nor 2.
pub(crate) fn window_numbered(number: u64) -> Option<Window>
    ensures { result ≡ window_numbered number }
{
    match number {
        1 => Some(Window::First),
        2 => Some(Window::Second),
        _ => None,
    }
}

pub(crate) fn window_number(window: Window) -> u8
    ensures { result ≡ window_number window }
{
    match window {
        Window::First => 1,
        Window::Second => 2,
    }
}
