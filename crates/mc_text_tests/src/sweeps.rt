// Sweeps of decks over a device and streams in memory.

mod tests;
