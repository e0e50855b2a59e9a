//! What crates above this one name of `seed_draws`.

pub use seed_draws::SeedDraws;
pub use seed_draws::of_tree_config::Shape;
