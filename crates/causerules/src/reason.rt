// What a refused byte goes back to: its own line, or the line since which the gauge is sealed, has
// nothing loaded or has block A loaded while sealed, which gave the class register its number, or
// which wrote or loaded the window.
#[derive(Clone, Copy)]
pub enum Reason {
    Itself,
    Sealed,
    NothingLoaded,
    Protected,
    Class,
    Window,
}
