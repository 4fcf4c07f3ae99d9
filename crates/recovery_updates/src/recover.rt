pub use block_answers::commands::Recover;
